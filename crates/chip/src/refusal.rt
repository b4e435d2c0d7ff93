// Why a chip does not do what it is told.
ghost use Rattle.std.specs.Prelude.{◌≡◌, Some};
ghost use Rattle.chip.specs.declared.refusal.Refusal.TheVariants.{IllFormed, Unable as unable};
ghost use Rattle.chip.specs.Refusals.{unable_words, refusal_words};

use bootloader::FrameFault;
use std::fmt;

// A command that cannot be carried out.
#[derive(Clone, Copy, PartialEq, Eq, Debug)]
pub struct Unable;

impl fmt::Display for Unable {
    ghost output = { λ _. Some unable_words };

    fn fmt<W: fmt::Write>(&self, f: &mut fmt::Formatter<W>) -> fmt::Result {
        f.pad("the sensor cannot carry the command out")
    }
}

impl std::error::Error for Unable {}

// A frame that is not done.
#[derive(Clone, Copy, PartialEq, Eq, Debug)]
pub enum Refusal {
    // It is no frame.
    IllFormed(FrameFault),
    // Its command cannot be carried out.
    Unable,
}

impl From<FrameFault> for Refusal {
    ghost from_gives = { λ fault refusal. refusal ≡ IllFormed fault };

    fn from(fault: FrameFault) -> Refusal {
        Refusal::IllFormed(fault)
    }
}

impl From<Unable> for Refusal {
    ghost from_gives = { λ _ refusal. refusal ≡ unable };

    fn from(_unable: Unable) -> Refusal {
        Refusal::Unable
    }
}

impl fmt::Display for Refusal {
    ghost output = { λ refusal. Some (refusal_words refusal) };

    fn fmt<W: fmt::Write>(&self, f: &mut fmt::Formatter<W>) -> fmt::Result {
        match self {
            Refusal::IllFormed(fault) => fault.fmt(f),
            Refusal::Unable => Unable.fmt(f),
        }
    }
}

impl std::error::Error for Refusal {}
