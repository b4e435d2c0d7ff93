// The exchanges kept so far.
ghost use Rattle.std.specs.Prelude.{◌≡◌, true, false, map, IfOk, MatchOption};
ghost use Rattle.recorder.specs.Kept.{meaning};
ghost use Rattle.recorder.specs.Books.{Blank, noted};

use super::entry::Recorded;
use std::alloc::{AllocError, Global};
use std::marker::Model;

#[derive(Drop)]
pub struct Notes {
    entries: Vec<Recorded>,
    // An exchange was not kept for want of room. A flag, since the entries stay as they were then.
    short: bool,
}

// Clauses see the book that they say.
impl Model for Notes {
    ghost use Rattle.recorder.specs.Books.{Book};

    ghost Value = { Book };

    ghost use Rattle.recorder.specs.Viewed.{book_of};

    ghost view = { book_of };
}

impl Notes {
    // Takes all the memory that they will have.
    pub fn with_room(heap: Global, room: usize) -> Result<Notes, AllocError>
        ensures { IfOk result (Blank room) }
    {
        let entries = Vec::with_capacity(heap, room)?;
        Ok(Notes {
            entries,
            short: false,
        })
    }

    pub fn note(&mut self, entry: Recorded)
        ensures { self.new ≡ noted (meaning entry) self.old }
    {
        if self.entries.len() < self.entries.capacity() {
            self.entries.push_reserved(entry);
        } else {
            self.short = true;
        }
    }

    pub fn is_short(&self) -> bool
        ensures { result ≡ self.now.short }
    {
        self.short
    }

    pub fn whole(&self) -> Option<&[Recorded]>
        ensures { MatchOption result (self.now.short ≡ true) (λ s. (self.now.short ≡ false) × (map meaning s.now ≡ self.now.log)) }
    {
        if self.short {
            return None;
        }
        Some(self.entries.as_slice())
    }
}
