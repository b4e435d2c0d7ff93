// What the program prints for a text.
ghost use Rattle.std.specs.Prelude.{◌≡◌, false, is_ok, IfOk, Ok, MatchResult};
ghost use Rattle.listings.specs.Outputs.{listed, fault_line, printed_of};

use super::fault::ProgramFault;
use super::lists::list;
use std::alloc::{AllocError, Global};

// The line for a fault: its number, line and place.
pub fn fault_line(heap: Global, fault: &ProgramFault) -> Result<Vec<u8>, AllocError>
    ensures { IfOk result (λ v. v.items ≡ fault_line fault.now) }
{
    let text = format!(in heap; "{fault}\n")?;
    Ok(text.into_bytes())
}

// The strings, or one line for the fault. It fails only for want of memory.
pub fn answer(heap: Global, text: &[u8]) -> Result<Result<Vec<u8>, Vec<u8>>, AllocError>
    ensures { IfOk result (λ o. MatchResult o (λ strings. listed text.now ≡ Ok strings.items) (λ line. (line.items ≡ printed_of (listed text.now)) × (is_ok (listed text.now) ≡ false))) }
{
    match list(heap, text) {
        Ok(strings) => Ok(Ok(strings)),
        Err(ProgramFault::Memory) => Err(AllocError),
        Err(fault) => Ok(Err(fault_line(heap, &fault)?)),
    }
}
