// Reading a patch card.
ghost use Rattle.std.specs.Prelude.{◌≡◌, List, length, MatchResult};
ghost use Rattle.ihex.specs.Reads.{read_text};
ghost use Rattle.hexline.specs.Rows.{row_after_text};
ghost use Rattle.ihex.specs.Patches.{text_in};
ghost use Rattle.canonical.specs.Canonical.{DataSpec, ReadsBack};
ghost use Rattle.naming.specs.Bytes.{ByLast, AtMostOnce, ReachesSo, FramesWrite};
ghost use Rattle.refusals.specs.Exact.{Exact};
ghost use Rattle.rewriting.specs.Laws.{EndsFree, CaseFree, StartFree};
ghost use Rattle.card.specs.Answers.{Answered};

use ihex::{Patch, TextFault};

// Holds the card's text in the patch if it passes every rule; otherwise the patch stays as it was, and the fault says
// why. The row is all zero afterwards, or as it was where it has not 255 bytes.
pub fn read_card<'t>(patch: &mut Patch<'t>, text: &'t [u8], row: &mut [u8]) -> Result<(), TextFault>
    ensures result { result ≡ read_text (length row.old) text.now }
    ensures row { row.new ≡ row_after_text row.old }
    ensures held { MatchResult result (λ _. text_in patch.new ≡ text.now) (λ _. patch.new ≡ patch.old) }
    ensures answered { length row.old ≡ 255 → Answered text.now result }
    ensures exact { Exact text.now }
    ensures canonical { (ds : List DataSpec) → ReadsBack ds }
    ensures named { ByLast text.now }
    ensures once { AtMostOnce text.now }
    ensures reaches { ReachesSo text.now }
    ensures frames { FramesWrite text.now }
    ensures ends { EndsFree }
    ensures case { CaseFree }
    ensures start { StartFree }
{
    patch.read(text, row)
}
