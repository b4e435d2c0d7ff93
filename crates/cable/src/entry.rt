// What becomes of one exchange.
#[derive(Clone, Copy, PartialEq, Eq, Debug)]
pub enum Entry {
    // It is passed on to the link below, and so is the answer.
    Clean,
    // The link below is not asked; missed.
    Lost,
    // The link below is asked, and its answer is dropped; missed.
    Unheard,
}
