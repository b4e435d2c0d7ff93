// Commands of the bootloader as frames, its status replies, and frames as I2C strings.
#![tactic(auto)]

mod command;
mod fault;
mod frame;
mod status;
mod string;

pub use command::Command;
pub use fault::FrameFault;
pub use frame::{LONGEST_FRAME, decode};
pub use status::{LEAST_BUSY, Reply, read_reply};
