// A sensor's state, apart from its RAM.
use sensor::Stage;

#[derive(Clone, Copy, PartialEq, Eq, Debug)]
pub struct State {
    // Where the next bytes are written.
    pub pointer: u32,
    pub stage: Stage,
    // The byte that a status reply shows: 0, or the reason why the last frame was refused.
    pub status: u8,
    // It starts from its RAM.
    pub remapped: bool,
    // Its RAM may be written.
    pub opened: bool,
    // It is still at work on the last frame.
    pub working: bool,
}
