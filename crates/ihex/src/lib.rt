// The maker's patch as Intel HEX text: read it exactly, or refuse it with number, line and place.
#![tactic(auto)]

mod cut;
mod frames;
mod held;
mod lines;
mod reads;
mod walk;

pub use frames::{DataFrame, DataFrames};
pub use held::Patch;
pub use hexline::{Line, Spot, TextFault, digit, read_line};
pub use reads::check_text;
pub use walk::{DataLine, DataLines};
