// A link over any link that keeps each exchange with its answer.
#![tactic(auto)]

mod bytes;
mod entry;
mod notes;
mod recorder;

pub use bytes::{Bytes, TooMany};
pub use entry::{Asked, Recorded};
pub use recorder::Recorder;
