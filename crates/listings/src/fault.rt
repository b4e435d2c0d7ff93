// Why a text is not listed.
ghost use Rattle.std.specs.Prelude.{◌≡◌, Some};
ghost use Rattle.listings.specs.declared.fault.ProgramFault.TheVariants.{Text, Frame, Memory};
ghost use Rattle.listings.specs.Outputs.{number_of, line_in, place_in, shown_of};

use bootloader::FrameFault;
use ihex::TextFault;
use std::alloc::AllocError;
use std::error::Error;
use std::fmt;

// A fault of a layer below stands whole in its case.
#[derive(Clone, Copy, Debug, PartialEq, Eq)]
pub enum ProgramFault {
    Text(TextFault),
    Frame(FrameFault),
    // 23: a byte is named at or above the sensor's window
    PastWindow,
    // no memory was left for the strings
    Memory,
}

impl From<TextFault> for ProgramFault {
    ghost from_gives = { λ e r. r ≡ Text e };

    fn from(fault: TextFault) -> ProgramFault {
        ProgramFault::Text(fault)
    }
}

impl From<FrameFault> for ProgramFault {
    ghost from_gives = { λ e r. r ≡ Frame e };

    fn from(fault: FrameFault) -> ProgramFault {
        ProgramFault::Frame(fault)
    }
}

impl From<AllocError> for ProgramFault {
    ghost from_gives = { λ _ r. r ≡ Memory };

    fn from(_fault: AllocError) -> ProgramFault {
        ProgramFault::Memory
    }
}

impl ProgramFault {
    // The number under which the fault is reported; 0 for want of memory, which is no refusal.
    pub fn number(&self) -> u8
        ensures { result ≡ number_of self.now }
    {
        match self {
            ProgramFault::Text(fault) => fault.number(),
            ProgramFault::Frame(fault) => fault.number(),
            ProgramFault::PastWindow => 23,
            ProgramFault::Memory => 0,
        }
    }

    // The line, from 1; 0 where the fault has none.
    pub fn line(&self) -> usize
        ensures { result ≡ line_in self.now }
    {
        match self {
            ProgramFault::Text(fault) => fault.line(),
            ProgramFault::Frame(_) | ProgramFault::PastWindow | ProgramFault::Memory => 0,
        }
    }

    // The place of the byte in the text, from 0.
    pub fn place(&self) -> usize
        ensures { result ≡ place_in self.now }
    {
        match self {
            ProgramFault::Text(fault) => fault.place(),
            ProgramFault::Frame(_) | ProgramFault::PastWindow | ProgramFault::Memory => 0,
        }
    }
}

impl fmt::Display for ProgramFault {
    ghost output = { λ fault. Some (shown_of fault) };

    fn fmt<W: fmt::Write>(&self, f: &mut fmt::Formatter<W>) -> fmt::Result {
        let number = self.number();
        let line = self.line();
        let place = self.place();
        write!(f, "fault {number} {line} {place}")
    }
}

impl Error for ProgramFault {}
