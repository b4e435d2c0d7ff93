// The cable, and how it stands.
ghost use Rattle.std.specs.Prelude.{◌≡◌};
ghost use Rattle.cable.specs.Laws.{CleanAsBelow, LostLeaves, UnheardArrives, OffSizeLeaves};

use super::entry::Entry;
use sensor::Link;

mod carry;

// Each exchange takes one entry; after the last one, exchanges are clean.
#[derive(Drop)]
pub struct Cable<L> {
    link: L,
    entries: [Entry; 64],
    // How many entries are used up: an iterator would borrow what the cable holds.
    at: usize,
}

impl<L: Link> Cable<L> {
    pub fn new(link: L, entries: [Entry; 64]) -> Self
        ensures link { result.link ≡ link }
        ensures entries { result.entries ≡ entries }
        ensures at { result.at ≡ 0 }
        ensures clean { CleanAsBelow L.Link.machine entries }
        ensures lost { LostLeaves L.Link.machine entries }
        ensures unheard { UnheardArrives L.Link.machine entries }
        ensures size { OffSizeLeaves L.Link.machine entries }
    {
        Cable {
            link,
            entries,
            at: 0,
        }
    }

    // The link below.
    pub fn link(&self) -> &L
        ensures { result.now ≡ self.now.link }
    {
        &self.link
    }

    // The link below, taken back.
    pub fn into_link(self) -> L
        ensures { result ≡ self.link }
    {
        self.link
    }

    // How many entries are used up.
    pub fn used(&self) -> usize
        ensures { result ≡ self.now.at }
    {
        self.at
    }
}
