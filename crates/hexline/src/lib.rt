// One line of Intel HEX text: a colon, then digit pairs for count, address, type, data and check byte.
#![tactic(auto)]

mod digits;
mod fault;
mod form;
mod guard;
mod line;
mod spot;

pub use digits::{decode, digit};
pub use fault::TextFault;
pub use form::{address_on, byte_on, data_digits};
pub use guard::RowGuard;
pub use line::{Line, read_line, sort_line};
pub use spot::Spot;
