// Scripts played on a simulated sensor, perhaps over a cable, and choices played on the adversary.
#![tactic(auto)]

mod choices;
mod digits;
mod fault;
mod links;
mod player;
mod plays;

pub use digits::{pair, paired};
pub use fault::PlayFault;
pub use plays::{Played, play, play_choices};
