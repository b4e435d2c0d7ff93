// What register ENABLE says and is told.
use super::pattern::Pattern;

#[derive(Clone, Copy, PartialEq, Eq, Debug)]
pub enum Enable {
    Asleep,
    Starting,
    // In the loader, or running the patch.
    Ready,
    // No value that this kind of sensor shows.
    Strange,
}

// What a byte written to ENABLE asks for.
#[derive(Clone, Copy, PartialEq, Eq, Debug)]
pub enum Order {
    Wake,
    Sleep,
    // Nothing.
    Other,
}

// A kind's patterns of ENABLE.
#[derive(Clone, Copy, PartialEq, Eq, Debug)]
pub struct Patterns {
    // What it shows.
    pub asleep: Pattern,
    pub starting: Pattern,
    pub ready: Pattern,
    // What is written to it.
    pub wake: Pattern,
    pub sleep: Pattern,
}
