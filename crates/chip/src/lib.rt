// A sensor's state in memory, and what happens in it. The links that play a sensor stand on it.
#![tactic(auto)]

mod fault;
mod lent;
mod refusal;
mod reply;
mod state;

pub use fault::{RamFault, Refused, check_ram};
pub use lent::Chip;
pub use refusal::{Refusal, Unable};
pub use reply::status_reply;
pub use state::State;
