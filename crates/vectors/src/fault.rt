// Why a case of the table cannot be run.
use playing::PlayFault;
use std::alloc::{AllocError, AllocFailed};
use std::error::Error;
use std::fmt;

#[derive(Clone, Copy, Debug, PartialEq, Eq)]
pub enum TableFault {
    // not six fields, or a group that is not known
    NoCase,
    // the third field is no number
    NoRoom,
    // a backslash that begins none of the escapes
    NoEscape,
    // a field of digit pairs has something else
    NoPairs,
    // no command has this name and these bytes
    NoCommand,
    // what is to be played cannot be
    NoPlay,
    // no memory was left
    Memory,
}

impl fmt::Display for TableFault {
    fn fmt<W: fmt::Write>(&self, f: &mut fmt::Formatter<W>) -> fmt::Result {
        f.pad(match self {
            TableFault::NoCase => "not six fields with a group that is known",
            TableFault::NoRoom => "the third field is no number",
            TableFault::NoEscape => "a backslash begins none of the escapes",
            TableFault::NoPairs => "not digit pairs",
            TableFault::NoCommand => "no command has this name and these bytes",
            TableFault::NoPlay => "no kind, entry or exchange that can be played",
            TableFault::Memory => "no memory was left",
        })
    }
}

impl Error for TableFault {}

impl From<PlayFault> for TableFault {
    fn from(fault: PlayFault) -> TableFault {
        match fault {
            PlayFault::NoPairs => TableFault::NoPairs,
            PlayFault::NoPlay => TableFault::NoPlay,
            PlayFault::Memory => TableFault::Memory,
        }
    }
}

impl From<AllocError> for TableFault {
    fn from(_fault: AllocError) -> TableFault {
        TableFault::Memory
    }
}

impl<T: Drop> From<AllocFailed<T>> for TableFault {
    fn from(_fault: AllocFailed<T>) -> TableFault {
        TableFault::Memory
    }
}
