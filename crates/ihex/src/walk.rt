// A walk over the data lines of a text.
ghost use Rattle.std.specs.Prelude.{◌≡◌, false};

use super::lines::{Lines, TextLine};
use hexline::{Spot, address_on, byte_on, data_digits};

// A data line: its address, its data digits as a part of the text, and where it stands.
#[derive(Clone, Copy)]
pub struct DataLine<'t> {
    pub address: u16,
    pub digits: &'t [u8],
    pub at: Spot,
}

impl<'t> DataLine<'t> {
    ghost use Rattle.ihex.specs.Named.{reaches_next};
    ghost use Rattle.ihex.specs.Walks.{said_data, SaysData};

    // The data on a line, if it is a data line.
    fn on(line: TextLine<'t>) -> Option<DataLine<'t>>
        ensures { SaysData line.entry result }
    {
        if byte_on(line.chars, 3) != 0 {
            return None;
        }
        Some(DataLine {
            address: address_on(line.chars),
            digits: data_digits(line.chars),
            at: line.at,
        })
    }

    // Whether it names a byte at or above the window's end.
    #[tactic(auto, using(hexline::proofs::Pairs::length_pairs))]
    pub(crate) fn reaches(&self, window: u32) -> bool
        ensures { result ≡ reaches_next window false (said_data self.now) }
    {
        let count = self.digits.len() / 2;
        count > 0 && self.address as usize + count > window as usize
    }
}

// The data lines of a text, one after the other.
#[derive(Drop)]
pub struct DataLines<'t> {
    lines: Lines<'t>,
}

impl<'t> DataLines<'t> {
    ghost use Rattle.ihex.specs.Named.{data_lines};
    ghost use Rattle.ihex.specs.Walks.{lines_left};

    // From the first line on.
    #[tactic(auto, unfolding(crate::specs::Named::data_lines))]
    pub fn over(text: &'t [u8]) -> DataLines<'t>
        ensures { lines_left result ≡ data_lines text.now }
    {
        DataLines {
            lines: Lines::over(text),
        }
    }
}

impl<'t> Iterator for DataLines<'t> {
    type Item = DataLine<'t>;

    ghost use Rattle.std.specs.Iterator.{item_count};
    ghost use Rattle.ihex.specs.Walks.{lines_left, DataStep};

    ghost next_gives = { DataStep };

    ghost remaining = { item_count lines_left };

    // After the last data line it stays where it is.
    fn next(&mut self) -> Option<DataLine<'t>> {
        let mut lines = self.lines;
        let data = lines.find_map(DataLine::on)?;
        self.lines = lines;
        Some(data)
    }
}
