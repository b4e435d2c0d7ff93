// What is refused of lent RAM.
ghost use Rattle.std.specs.Prelude.{◌≡◌, length, Some};
ghost use Rattle.chip.specs.Faults.{number_of, words_of, ram_checked};

use std::fmt;

// Each has the number under which it is reported.
#[derive(Clone, Copy, PartialEq, Eq, Debug)]
pub enum RamFault {
    // The lent RAM has not as many bytes as the kind's window.
    WrongSize = 29,
}

impl RamFault {
    // The number under which the fault is reported.
    pub fn number(&self) -> u8
        ensures { result ≡ number_of self.now }
    {
        *self as u8
    }

    // The fault in words.
    fn words(&self) -> &'static str
        ensures { result.now ≡ words_of self.now }
    {
        match self {
            RamFault::WrongSize =>
                "the lent RAM has the wrong size: lend as many bytes as the kind's window",
        }
    }
}

impl fmt::Display for RamFault {
    ghost output = { λ fault. Some (words_of fault) };

    fn fmt<W: fmt::Write>(&self, f: &mut fmt::Formatter<W>) -> fmt::Result {
        f.pad(self.words())
    }
}

impl std::error::Error for RamFault {}

// What comes back where a sensor is not made: why, and the lent RAM.
#[derive(Drop)]
pub struct Refused<'a> {
    pub fault: RamFault,
    pub ram: &'a mut [u8],
}

// Whether lent RAM has as many bytes as a window.
pub fn check_ram(ram: &[u8], window: u32) -> Result<(), RamFault>
    ensures { result ≡ ram_checked (length ram.now) window }
{
    if ram.len() == window as usize {
        Ok(())
    } else {
        Err(RamFault::WrongSize)
    }
}
