// A whole text.
ghost use Rattle.std.specs.Prelude.{◌≡◌, ◌+◌, ◌^◌, ◌<◌, ◌≤◌, true, false, ◌||◌, [], length, IfOk, Ok, Err, nat_lt};
ghost use Rattle.hexline.specs.Faults.{decided};
ghost use Rattle.hexline.specs.Rows.{row_after_text};
ghost use Rattle.ihex.specs.Texts.{lines_of};
ghost use Rattle.ihex.specs.Reads.{lines_kept, text_of, read_text};

use super::lines::{Lines, TextLine};
use hexline::{Line, RowGuard, Spot, TextFault, sort_line};

// The longest text.
const LONGEST_TEXT: usize = 131072;

// What the lines so far have said: at first nothing.
#[derive(Clone, Copy, Default)]
pub struct Seen {
    // the upper half of addresses
    upper: u16,
    // the last data line's end
    top: u32,
    // whether a byte is named
    names: bool,
    // whether the end line came
    ended: bool,
    // where the last line stands
    at: Spot,
}

impl Seen {
    ghost use Rattle.ihex.specs.Reads.{seen_next, data_rules, rules_beside};
    ghost use Rattle.ihex.specs.Walks.{said_text};

    // One data line more, of so many bytes.
    fn with_data(self, start: u16, count: u8, at: Spot) -> Result<Seen, TextFault>
        ensures { result ≡ decided (data_rules self.upper self.top start count at.line at.place) (record { upper = self.upper; top = start + count; names = self.names || nat_lt 0 count; ended = self.ended; at = at }) }
    {
        let end = u32::from(start) + u32::from(count);
        if self.upper != 0x2000 {
            return Err(TextFault::WrongUpper(at));
        }
        if u32::from(start) < self.top {
            return Err(TextFault::Backward(at));
        }
        if end > 65536 {
            return Err(TextFault::PastTop(at));
        }
        Ok(Seen {
            top: end,
            names: self.names || count > 0,
            at,
            ..self
        })
    }

    // One line more.
    fn with_line(self, line: TextLine<'_>) -> Result<Seen, TextFault>
        requires { line.at.place < 2 ^ 32 }
        ensures { result ≡ decided (rules_beside self (said_text line.entry)) (seen_next self (said_text line.entry)) }
    {
        let at = line.at;
        if self.ended {
            return Err(TextFault::AfterEnd(at));
        }
        match sort_line(line.chars, at.line, at.place as u32)? {
            Line::Data {
                address,
                digits,
                ..
            } => self.with_data(address, (digits.len() / 2) as u8, at),
            Line::End { .. } => Ok(Seen {
                ended: true,
                at,
                ..self
            }),
            Line::Base { upper, .. } => Ok(Seen { upper, at, ..self }),
            Line::Start { .. } => Ok(Seen { at, ..self }),
        }
    }
}

// All lines.
fn read_lines(text: &[u8]) -> Result<Seen, TextFault>
    requires { length text.now ≤ 131072 }
    ensures result { result ≡ lines_kept [] (lines_of text.now) }
    ensures few { IfOk result (λ s. s.at.line ≤ 131072) }
{
    let mut seen = Seen::default();
    for line in Lines::over(text) {
        seen = seen.with_line(line)?;
    }
    Ok(seen)
}

// Every rule of a text.
#[tactic(auto, unfolding(crate::specs::Reads::text_of))]
fn check_rules(text: &[u8]) -> Result<(), TextFault>
    ensures { result ≡ text_of text.now }
{
    if text.len() > LONGEST_TEXT {
        return Err(TextFault::TooLong);
    }
    let seen = read_lines(text)?;
    if !seen.ended {
        return Err(TextFault::NoEnd(Spot {
            line: seen.at.line + 1,
            place: text.len(),
        }));
    }
    if !seen.names {
        return Err(TextFault::NothingNamed(seen.at));
    }
    Ok(())
}

// Reads a whole text. The row is all zero afterwards.
pub fn check_text(text: &[u8], row: &mut [u8]) -> Result<(), TextFault>
    ensures result { result ≡ read_text (length row.old) text.now }
    ensures row { row.new ≡ row_after_text row.old }
{
    if row.len() != 255 {
        return Err(TextFault::RowLength);
    }
    let _guard = RowGuard { row, kept: 0 };
    check_rules(text)
}
