// What every link keeps, and the smallest link.
#![tactic(auto)]

mod kept;
mod nothing;

pub use kept::vouch;
pub use nothing::Unplugged;
