// Why a case cannot be played.
ghost use Rattle.std.specs.Prelude.{◌≡◌, Some};
ghost use Rattle.playing.specs.Faults.{words_of};

use std::alloc::{AllocError, AllocFailed};
use std::error::Error;
use std::fmt;

#[derive(Clone, Copy, Debug, PartialEq, Eq)]
pub enum PlayFault {
    // something else than digit pairs
    NoPairs,
    // no kind, entry or exchange that can be played
    NoPlay,
    // no memory was left
    Memory,
}

impl PlayFault {
    // The fault in words.
    fn words(&self) -> &'static str
        ensures { result.now ≡ words_of self.now }
    {
        match self {
            PlayFault::NoPairs => "not digit pairs",
            PlayFault::NoPlay => "no kind, entry or exchange that can be played",
            PlayFault::Memory => "no memory was left",
        }
    }
}

impl fmt::Display for PlayFault {
    ghost output = { λ fault. Some (words_of fault) };

    fn fmt<W: fmt::Write>(&self, f: &mut fmt::Formatter<W>) -> fmt::Result {
        f.pad(self.words())
    }
}

impl Error for PlayFault {}

impl From<AllocError> for PlayFault {
    fn from(_fault: AllocError) -> PlayFault {
        PlayFault::Memory
    }
}

impl<T: Drop> From<AllocFailed<T>> for PlayFault {
    fn from(_fault: AllocFailed<T>) -> PlayFault {
        PlayFault::Memory
    }
}
