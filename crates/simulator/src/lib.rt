// A simulated sensor over lent RAM, of each kind. A lent script says what becomes of each exchange.
#![tactic(auto)]

mod fate;
mod simulated;

pub use simulated::{Simulated, SimulatedTmf8x0x, SimulatedTmf882x};
