// Kinds of sensor, what an exchange may do to a sensor, and the link to one.
#![tactic(auto)]

mod enable;
mod kind;
mod link;
mod missed;
mod pattern;
mod registers;
mod script;
mod size;
mod stage;

pub use enable::{Enable, Order, Patterns};
pub use kind::{Kind, Tmf8x0x, Tmf882x};
pub use link::Link;
pub use missed::Missed;
pub use pattern::Pattern;
pub use registers::{APPID, Asked, BOOTLOADER, ENABLE, app_shown};
pub use script::take_next;
pub use size::{MOST_READ, MOST_WRITTEN, can_read, can_write};
pub use stage::Stage;
