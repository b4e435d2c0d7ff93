// A link over lent RAM whose script picks, at each exchange, any outcome that the sensor's meaning allows.
#![tactic(auto)]

mod adversary;
mod choice;
mod send;
mod show;

pub use adversary::Adversary;
pub use choice::{Arrival, Choice};
