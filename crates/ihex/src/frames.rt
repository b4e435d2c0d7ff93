// A walk over the data frames of a text.
ghost use Rattle.std.specs.Prelude.{◌≡◌, ◌+◌, ◌≤◌, [], length, MatchOption};

use super::walk::DataLines;
use hexline::decode;

// Up to 128 bytes for the RAM from `start` on: the first `len` of `bytes`, which lie in fixed memory, as there is no heap.
// `line` is the text's line that they come from, `number` counts the frames of the patch from 0.
#[derive(Clone, Copy)]
pub struct DataFrame {
    pub start: usize,
    pub bytes: [u8; 128],
    pub len: usize,
    pub line: usize,
    pub number: usize,
}

impl DataFrame {
    ghost use Rattle.ihex.specs.Walks.{said_frame};

    // The bytes that go from `start` on.
    pub fn data(&self) -> &[u8]
        ensures { result.now ≡ (said_frame self.now).bytes }
    {
        self.bytes.get(..self.len).unwrap_or(&self.bytes)
    }
}

// The data frames of a text, one after the other.
#[derive(Drop)]
pub struct DataFrames<'t> {
    // the lines after the one at hand
    lines: DataLines<'t>,
    // what is left of the line at hand: where it goes, its digits, its number
    start: usize,
    digits: &'t [u8],
    line: usize,
    // how many frames came so far
    count: usize,
    ghost low: { start + length digits.now ≤ 66045 },
    ghost few: { count + length digits.now ≤ lines.lines.at.place },
}

impl<'t> DataFrames<'t> {
    ghost use Rattle.ihex.specs.Frames.{frames_of};
    ghost use Rattle.ihex.specs.Walks.{frames_left};

    // From the first data line on.
    #[tactic(auto, unfolding(hexline::specs::Digits::pairs, crate::specs::Frames::chunks))]
    pub fn over(text: &'t [u8]) -> DataFrames<'t>
        ensures left { frames_left result ≡ frames_of text.now }
        ensures count { result.count ≡ 0 }
    {
        DataFrames {
            lines: DataLines::over(text),
            start: 0,
            digits: b"",
            line: 0,
            count: 0,
        }
    }

    // How many frames came so far.
    pub fn given(&self) -> usize
        ensures { result ≡ self.now.count }
    {
        self.count
    }

    // Goes on to a line that has bytes left, if there is one. Not `find`, which would hand out the line, with the fields still to set.
    fn refill(&mut self) -> Option<()>
        ensures same { frames_left self.new ≡ frames_left self.old }
        ensures count { self.new.count ≡ self.old.count }
        ensures more { MatchOption result (frames_left self.old ≡ []) (λ _. 2 ≤ length self.new.digits.now) }
    {
        while self.digits.len() < 2 {
            let data = self.lines.next()?;
            self.start = data.address as usize;
            self.digits = data.digits;
            self.line = data.at.line;
        }
        Some(())
    }
}

impl Iterator for DataFrames<'_> {
    type Item = DataFrame;

    ghost use Rattle.std.specs.Iterator.{item_count};
    ghost use Rattle.ihex.specs.Walks.{frames_left, FrameStep};

    ghost next_gives = { FrameStep };

    ghost remaining = { item_count frames_left };

    fn next(&mut self) -> Option<DataFrame> {
        self.refill()?;
        let (digits, rest) = self.digits.split_at(self.digits.len().min(256));
        let mut bytes = [0u8; 128];
        let len = decode(digits, &mut bytes);
        let frame = DataFrame {
            start: self.start,
            bytes,
            len,
            line: self.line,
            number: self.count,
        };
        self.start += len;
        self.digits = rest;
        self.count += 1;
        Some(frame)
    }
}
