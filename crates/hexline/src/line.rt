// One line of a text.
ghost use Rattle.std.specs.Prelude.{◌≡◌, ◌+◌, ◌*◌, ◌^◌, ◌<◌, length, slice_index};
ghost use Rattle.hexline.specs.Faults.{decided};
ghost use Rattle.hexline.specs.Digits.{pairs};
ghost use Rattle.hexline.specs.Lines.{said, said_line, digits_in, type_rules, case_of, line_of, single_line};
ghost use Rattle.hexline.specs.Rows.{row_after_line};

use super::digits::{byte_at, decode};
use super::fault::TextFault;
use super::form::{address_on, byte_on, check_form, data_digits};
use super::guard::RowGuard;
use super::spot::Spot;

// A line's case. Each holds its data digits as a part of the text, and the spot of its first byte.
#[derive(Clone, Copy)]
pub enum Line<'t> {
    // bytes for the RAM, from the address on
    Data {
        address: u16,
        digits: &'t [u8],
        at: Spot,
    },
    // the end of the text
    End {
        digits: &'t [u8],
        at: Spot,
    },
    // the upper half of the addresses that follow
    Base {
        upper: u16,
        digits: &'t [u8],
        at: Spot,
    },
    // a start address, which is ignored
    Start {
        digits: &'t [u8],
        at: Spot,
    },
}

impl<'t> Line<'t> {
    // The data digits.
    pub fn digits(&self) -> &'t [u8]
        ensures { result.now ≡ digits_in (said_line self.now) }
    {
        match self {
            Line::Data { digits, .. }
            | Line::End { digits, .. }
            | Line::Base { digits, .. }
            | Line::Start { digits, .. } => digits,
        }
    }
}

// What a line says that keeps the form.
fn sort_type<'t>(chars: &'t [u8], at: Spot) -> Result<Line<'t>, TextFault>
    ensures { said result ≡ decided (type_rules at.line at.place chars.now) (case_of at.line at.place chars.now) }
{
    let count = byte_on(chars, 0);
    let address = address_on(chars);
    let digits = data_digits(chars);
    match byte_on(chars, 3) {
        0 => Ok(Line::Data {
            address,
            digits,
            at,
        }),
        1 if count == 0 && address == 0 => Ok(Line::End { digits, at }),
        4 if count == 2 && address == 0 => Ok(Line::Base {
            upper: upper(digits),
            digits,
            at,
        }),
        5 if count == 4 && address == 0 => Ok(Line::Start { digits, at }),
        1 | 4 | 5 => Err(TextFault::WrongShape(at)),
        _ => Err(TextFault::UnknownType(at)),
    }
}

// The upper half that the digits of a base line stand for, high byte first.
fn upper(digits: &[u8]) -> u16
    ensures { result ≡ 256 * slice_index (pairs digits.now) 0 + slice_index (pairs digits.now) 1 }
{
    u16::from_be_bytes([byte_at(digits, 0), byte_at(digits, 1)])
}

// The case of the line, or the lowest of the refusals 11 to 16.
// No `Spot` is taken, since its place may be any number: a `u32` leaves room for the places within the line.
pub fn sort_line<'t>(chars: &'t [u8], line: usize, place: u32) -> Result<Line<'t>, TextFault>
    ensures { said result ≡ line_of line place chars.now }
{
    check_form(chars, line, place)?;
    let at = Spot {
        line,
        place: place as usize,
    };
    sort_type(chars, at)
}

// Reads a single line, given without its end, as line 1. Its data bytes stay in the row, with zeros after them.
pub fn read_line<'t>(chars: &'t [u8], row: &mut [u8]) -> Result<Line<'t>, TextFault>
    ensures result { said result ≡ single_line (length row.old) chars.now }
    ensures row { row.new ≡ row_after_line row.old chars.now }
{
    if row.len() != 255 {
        return Err(TextFault::RowLength);
    }
    let mut guard = RowGuard { row, kept: 0 };
    let line = sort_line(chars, 1, 0)?;
    guard.kept = decode(line.digits(), guard.row);
    Ok(line)
}
