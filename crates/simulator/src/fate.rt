// What becomes of an exchange.
ghost use Rattle.std.specs.Prelude.{◌≡◌, ◌==◌};
ghost use Rattle.simulator.specs.Scripts.{fate_of, way_at, place_of};

use sensor::BOOTLOADER;

// What the script says of an exchange.
#[derive(Clone, Copy, PartialEq, Eq, Debug)]
pub enum Fate {
    Clean,
    // Nothing arrives; missed.
    Lost,
    // It arrives, and is missed all the same.
    Unheard,
    // Bit 0 of the last byte is flipped on the way.
    Flipped,
    // The chip refuses the frame.
    Refused,
    // The chip works on the frame for a while, and shows itself busy with this byte.
    Slow(u8),
}

// Where an exchange goes.
#[derive(Clone, Copy, PartialEq, Eq, Debug)]
pub enum Place {
    // A frame to the bootloader, which takes it.
    CountingFrame,
    // Any other exchange with the bootloader.
    Bootloader,
    Elsewhere,
}

// How an exchange fares on its way.
#[derive(Clone, Copy, PartialEq, Eq, Debug)]
pub enum Way {
    Whole,
    Lost,
    Unheard,
    Flipped,
}

// What a byte of the script means.
impl From<u8> for Fate {
    ghost from_gives = { λ byte fate. fate ≡ fate_of byte };

    fn from(byte: u8) -> Fate {
        match byte {
            1 => Fate::Lost,
            2 => Fate::Unheard,
            3 => Fate::Flipped,
            4 => Fate::Refused,
            16.. => Fate::Slow(byte),
            _ => Fate::Clean,
        }
    }
}

impl Fate {
    // How an exchange of this fate fares there.
    pub fn way(self, place: Place) -> Way
        ensures { result ≡ way_at self place }
    {
        match (self, place) {
            (Fate::Clean, _) => Way::Whole,
            (Fate::Lost, _) => Way::Lost,
            (Fate::Unheard, _) => Way::Unheard,
            (Fate::Flipped, Place::Elsewhere) => Way::Lost,
            (Fate::Flipped, _) => Way::Flipped,
            (Fate::Refused, Place::CountingFrame) => Way::Whole,
            (Fate::Refused, _) => Way::Lost,
            (Fate::Slow(_), _) => Way::Whole,
        }
    }
}

impl Place {
    // Where an exchange with a register goes, which may be a frame that counts.
    pub fn of(register: u8, counts: bool) -> Place
        ensures { result ≡ place_of (register == 0x08) counts }
    {
        if register != BOOTLOADER {
            Place::Elsewhere
        } else if counts {
            Place::CountingFrame
        } else {
            Place::Bootloader
        }
    }
}
