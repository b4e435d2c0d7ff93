// The lines of a text.
ghost use Rattle.std.specs.Prelude.{◌≡◌, ◌+◌, ◌^◌, ◌<◌, ◌≤◌, length};

use super::cut::split_line;
use hexline::Spot;

// A line: where it stands, and its characters without its end.
#[derive(Clone, Copy)]
pub struct TextLine<'t> {
    pub at: Spot,
    pub chars: &'t [u8],
}

// The lines of a text, one after the other.
#[derive(Clone, Copy)]
pub struct Lines<'t> {
    // what is left of the text
    rest: &'t [u8],
    // where it begins
    at: Spot,
    ghost near: { at.line ≤ at.place + 1 },
    ghost within: { at.place + length rest.now < 2 ^ 63 },
}

impl<'t> Lines<'t> {
    ghost use Rattle.ihex.specs.Texts.{lines_of};
    ghost use Rattle.ihex.specs.Walks.{lines_from, end_of};

    // From the first line on.
    pub fn over(text: &'t [u8]) -> Lines<'t>
        ensures lines { lines_from result ≡ lines_of text.now }
        ensures end { end_of result ≡ length text.now }
    {
        Lines {
            rest: text,
            at: Spot { line: 1, place: 0 },
        }
    }
}

impl<'t> Iterator for Lines<'t> {
    type Item = TextLine<'t>;

    ghost use Rattle.std.specs.Iterator.{item_count};
    ghost use Rattle.ihex.specs.Walks.{lines_from, TextStep};

    ghost next_gives = { TextStep };

    ghost remaining = { item_count lines_from };

    fn next(&mut self) -> Option<TextLine<'t>> {
        if self.rest.is_empty() {
            return None;
        }
        let at = self.at;
        let (chars, rest) = split_line(self.rest);
        let taken = self.rest.len() - rest.len();
        *self = Lines {
            rest,
            at: Spot {
                line: at.line + 1,
                place: at.place + taken,
            },
        };
        Some(TextLine { at, chars })
    }
}
