// The listing: what a clean TMF8X0X session writes to register 0x08 for a text, as I2C strings.
#![tactic(auto)]

mod fault;
mod lists;
mod output;

pub use fault::ProgramFault;
pub use lists::list;
pub use output::{answer, fault_line};
