// What is refused of a frame.
ghost use Rattle.std.specs.Prelude.{◌≡◌, Some};
ghost use Rattle.bootloader.specs.Faults.{number_of, words_of};

use std::fmt;

// Each has the number under which it is reported.
#[derive(Clone, Copy, PartialEq, Eq, Debug)]
pub enum FrameFault {
    // More than 128 data bytes.
    DataTooLong = 24,
    // The buffer is shorter than the frame.
    BufferTooShort = 25,
    // Under three bytes, or not SIZE + 3 of them.
    WrongLength = 26,
    // CSUM does not fit the other bytes.
    WrongChecksum = 27,
    // The command, its SIZE or its seed is not in the table.
    UnknownCommand = 28,
    // The buffer is shorter than the longest string.
    StringBufferTooShort = 30,
}

impl FrameFault {
    // The number under which the fault is reported.
    pub fn number(&self) -> u8
        ensures { result ≡ number_of self.now }
    {
        *self as u8
    }

    // The fault in words.
    fn words(&self) -> &'static str
        ensures { result.now ≡ words_of self.now }
    {
        match self {
            FrameFault::DataTooLong =>
                "too much data for one frame: send at most 128 bytes at a time",
            FrameFault::BufferTooShort =>
                "no room for the frame: give a buffer of at least 3 bytes more than its data",
            FrameFault::WrongLength =>
                "the frame's length does not fit its SIZE: bytes are missing or too many, read it again",
            FrameFault::WrongChecksum =>
                "the frame's checksum is wrong: a byte was changed on the way, send it again",
            FrameFault::UnknownCommand =>
                "no command of the bootloader has this code, SIZE and data: look at what was sent",
            FrameFault::StringBufferTooShort =>
                "no room for the string: give a buffer of at least 405 bytes",
        }
    }
}

impl fmt::Display for FrameFault {
    ghost output = { λ fault. Some (words_of fault) };

    fn fmt<W: fmt::Write>(&self, f: &mut fmt::Formatter<W>) -> fmt::Result {
        f.pad(self.words())
    }
}

impl std::error::Error for FrameFault {}
