// A cable over any link: it passes an exchange on, loses it, or drops its answer.
#![tactic(auto)]

mod cable;
mod entry;

pub use cable::Cable;
pub use entry::Entry;
