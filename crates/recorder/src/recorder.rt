// The recorder.
ghost use Rattle.std.specs.Prelude.{◌≡◌, true, false, map, IfOk, MatchOption};
ghost use Rattle.recorder.specs.Kept.{meaning};
ghost use Rattle.recorder.specs.Books.{Blank};
ghost use Rattle.recorder.specs.Recording.{Recording, recording};
ghost use Rattle.recorder.specs.Laws.{SameAsBelow, RecordsAll};

use super::entry::Recorded;
use super::notes::Notes;
use sensor::{Link, Missed};
use std::alloc::{AllocError, Global};

#[derive(Drop)]
pub struct Recorder<L> {
    link: L,
    notes: Notes,
}

impl<L: Link + Drop> Recorder<L> {
    // Over a link, with room for so many exchanges or more. All the memory is taken here.
    #[tactic(auto, using(crate::proofs::Keeping::all))]
    pub fn over(heap: Global, link: L, room: usize) -> Result<Recorder<L>, AllocError>
        ensures made { IfOk result (λ n. (n.link ≡ link) × Blank room n.notes) }
        ensures same { SameAsBelow L.Link.machine }
        ensures all { RecordsAll L.Link.machine }
    {
        Notes::with_room(heap, room).map(|notes| Recorder { link, notes })
    }
}

impl<L: Link> Recorder<L> {
    // The link below.
    pub fn link(&self) -> &L
        ensures { result.now ≡ self.now.link }
    {
        &self.link
    }

    // The link below, taken back; the record is let go.
    pub fn into_link(self) -> L
        ensures { result ≡ self.link }
    {
        self.link
    }

    // Whether an exchange was not kept for want of room.
    pub fn is_short(&self) -> bool
        ensures { result ≡ self.now.notes.short }
    {
        self.notes.is_short()
    }

    // All exchanges with their answers, in order; none where the record is short.
    pub fn record(&self) -> Option<&[Recorded]>
        ensures { MatchOption result (self.now.notes.short ≡ true) (λ s. (self.now.notes.short ≡ false) × (map meaning s.now ≡ self.now.notes.log)) }
    {
        self.notes.whole()
    }
}

impl<L: Link> Link for Recorder<L> {
    type Model = L::Model;

    ghost State = { Recording L.Link.State };

    ghost view = { λ r. record { under = L.Link.view r.link; book = r.notes } };

    ghost machine = { recording L.Link.machine };

    fn of_its_kind() {
        L::of_its_kind()
    }

    fn write(&mut self, register: u8, bytes: &[u8]) -> Result<(), Missed> {
        let answer = self.link.write(register, bytes);
        let written = Recorded::of_write(register, bytes, answer);
        self.notes.note(written);
        answer
    }

    fn read(&mut self, register: u8, buf: &mut [u8]) -> Result<(), Missed> {
        let answer = self.link.read(register, buf);
        let read = Recorded::of_read(register, buf, answer);
        self.notes.note(read);
        answer
    }
}
