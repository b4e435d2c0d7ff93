// A text that passed every rule, and what is done with it.
ghost use Rattle.std.specs.Prelude.{◌≡◌, true, length, codes, MatchResult};
ghost use Rattle.hexline.specs.Rows.{row_after_text};
ghost use Rattle.ihex.specs.Reads.{accepted, read_text};

use super::frames::DataFrames;
use super::reads::check_text;
use super::walk::DataLines;
use hexline::TextFault;

// A checked patch: it holds the maker's text, and exists only for a text that passed every rule.
#[derive(Drop)]
pub struct Patch<'t> {
    text: &'t [u8],
    ghost ok: { accepted text.now ≡ true },
}

impl<'t> Patch<'t> {
    ghost use Rattle.ihex.specs.Named.{data_lines, reaches};
    ghost use Rattle.ihex.specs.Frames.{frames_of};
    ghost use Rattle.ihex.specs.Patches.{text_in};
    ghost use Rattle.ihex.specs.Walks.{lines_left, frames_left};

    // The listing's example: four bytes at address 0.
    pub fn example() -> Patch<'t>
        ensures { text_in result ≡ codes ":020000042000DA\n:0400000001020304F2\n:00000001FF\n" }
    {
        Patch {
            text: b":020000042000DA\n:0400000001020304F2\n:00000001FF\n",
        }
    }

    // The text that the patch holds.
    pub fn text(&self) -> &'t [u8]
        ensures value { result.now ≡ text_in self.now }
        ensures passed { accepted result.now ≡ true }
    {
        self.text
    }

    // Holds the new text if it passes every rule; otherwise the patch stays as it was. The row is all zero afterwards.
    pub fn read(&mut self, text: &'t [u8], row: &mut [u8]) -> Result<(), TextFault>
        ensures result { result ≡ read_text (length row.old) text.now }
        ensures row { row.new ≡ row_after_text row.old }
        ensures held { MatchResult result (λ _. text_in self.new ≡ text.now) (λ _. self.new ≡ self.old) }
    {
        check_text(text, row)?;
        self.text = text;
        Ok(())
    }

    // A walk over the data lines.
    pub fn data_lines(&self) -> DataLines<'t>
        ensures { lines_left result ≡ data_lines (text_in self.now) }
    {
        DataLines::over(self.text)
    }

    // A walk over the data frames.
    pub fn data_frames(&self) -> DataFrames<'t>
        ensures left { frames_left result ≡ frames_of (text_in self.now) }
        ensures count { result.count ≡ 0 }
    {
        DataFrames::over(self.text)
    }

    // How many data frames there are.
    pub fn frame_count(&self) -> usize
        ensures { result ≡ length (frames_of (text_in self.now)) }
    {
        self.data_frames().count()
    }

    // Whether a byte is named at or above the window's end.
    pub fn reaches(&self, window: u32) -> bool
        ensures { result ≡ reaches window (text_in self.now) }
    {
        self.data_lines().any(|data| data.reaches(window))
    }
}
