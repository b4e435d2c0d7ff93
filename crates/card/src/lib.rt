// A patch card: the call by which programs read its text, with all that is promised of texts.
#![tactic(auto)]

mod reads;

pub use reads::read_card;
