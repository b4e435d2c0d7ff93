// Where something stands in a text.

// A line's number, from 1, and a byte's place in the text, from 0.
#[derive(Clone, Copy, Debug, Default, PartialEq, Eq)]
pub struct Spot {
    pub line: usize,
    pub place: usize,
}
