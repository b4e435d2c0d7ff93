// Why a text is refused.
ghost use Rattle.std.specs.Prelude.{◌≡◌, Some};
ghost use Rattle.hexline.specs.Faults.{number_of, spot_in, line_in, place_in, words_of, shown_of};

use super::spot::Spot;
use std::error::Error;
use std::fmt;

// One case a refusal, with the spot of the byte that it is about.
#[derive(Clone, Copy, Debug, PartialEq, Eq)]
pub enum TextFault {
    // 10: over 131,072 bytes
    TooLong,
    // 11: the line does not begin with a colon
    NoColon(Spot),
    // 12: a character after the colon is no digit
    NoDigit(Spot),
    // 13: not as many digits as the count asks for
    WrongLength(Spot),
    // 14: the bytes do not add up to 0 modulo 256
    WrongSum(Spot),
    // 15: a type other than 00, 01, 04 and 05
    UnknownType(Spot),
    // 16: a type 01, 04 or 05 whose count or address is wrong
    WrongShape(Spot),
    // 17: data under an upper half other than 0x2000
    WrongUpper(Spot),
    // 18: data that starts before the last data line's end
    Backward(Spot),
    // 19: data that ends above 65,536
    PastTop(Spot),
    // 20: no end line
    NoEnd(Spot),
    // 21: a line after the end line
    AfterEnd(Spot),
    // 22: no byte is named
    NothingNamed(Spot),
    // 31: the caller's row has not 255 bytes
    RowLength,
}

impl TextFault {
    // The number under which the fault is reported.
    pub fn number(&self) -> u8
        ensures { result ≡ number_of self.now }
    {
        match self {
            TextFault::TooLong => 10,
            TextFault::NoColon(_) => 11,
            TextFault::NoDigit(_) => 12,
            TextFault::WrongLength(_) => 13,
            TextFault::WrongSum(_) => 14,
            TextFault::UnknownType(_) => 15,
            TextFault::WrongShape(_) => 16,
            TextFault::WrongUpper(_) => 17,
            TextFault::Backward(_) => 18,
            TextFault::PastTop(_) => 19,
            TextFault::NoEnd(_) => 20,
            TextFault::AfterEnd(_) => 21,
            TextFault::NothingNamed(_) => 22,
            TextFault::RowLength => 31,
        }
    }

    // Where the fault lies, if it lies anywhere.
    fn spot(&self) -> Option<Spot>
        ensures { result ≡ spot_in self.now }
    {
        match self {
            TextFault::NoColon(at)
            | TextFault::NoDigit(at)
            | TextFault::WrongLength(at)
            | TextFault::WrongSum(at)
            | TextFault::UnknownType(at)
            | TextFault::WrongShape(at)
            | TextFault::WrongUpper(at)
            | TextFault::Backward(at)
            | TextFault::PastTop(at)
            | TextFault::NoEnd(at)
            | TextFault::AfterEnd(at)
            | TextFault::NothingNamed(at) => Some(*at),
            TextFault::TooLong | TextFault::RowLength => None,
        }
    }

    // The line, from 1; 0 where the fault has none.
    pub fn line(&self) -> usize
        ensures { result ≡ line_in self.now }
    {
        self.spot().map_or(0, |at| at.line)
    }

    // The place of the byte in the text, from 0.
    pub fn place(&self) -> usize
        ensures { result ≡ place_in self.now }
    {
        self.spot().map_or(0, |at| at.place)
    }

    // The fault in words.
    fn words(&self) -> &'static str
        ensures { result.now ≡ words_of self.now }
    {
        match self {
            TextFault::TooLong => "the text is too long: a patch has at most 131,072 bytes",
            TextFault::NoColon(_) => "the line does not begin with a colon",
            TextFault::NoDigit(_) =>
                "this character is no digit: after the colon only 0-9, A-F and a-f may stand",
            TextFault::WrongLength(_) =>
                "the line is cut short or runs on: it has not the digits that its count asks for",
            TextFault::WrongSum(_) => "the line's sum is wrong: a digit of it was changed",
            TextFault::UnknownType(_) =>
                "the line's type is unknown: only 00, 01, 04 and 05 are read",
            TextFault::WrongShape(_) => "the line's count or address does not fit its type",
            TextFault::WrongUpper(_) =>
                "the data stands outside the sensor's RAM: its upper half is not 2000",
            TextFault::Backward(_) => "the data starts before the end of the data line before it",
            TextFault::PastTop(_) => "the data runs past the end of its 65,536 bytes",
            TextFault::NoEnd(_) => "the text has no end line: the end of the patch is missing",
            TextFault::AfterEnd(_) => "a line stands after the end line",
            TextFault::NothingNamed(_) => "the text names no byte: the patch is empty",
            TextFault::RowLength => "the row for a line's bytes must have 255 bytes",
        }
    }
}

impl fmt::Display for TextFault {
    ghost output = { λ fault. Some (shown_of fault) };

    fn fmt<W: fmt::Write>(&self, f: &mut fmt::Formatter<W>) -> fmt::Result {
        let number = self.number();
        let line = self.line();
        let place = self.place();
        let words = self.words();
        write!(f, "fault {number}, line {line}, place {place}: {words}")
    }
}

impl Error for TextFault {}
