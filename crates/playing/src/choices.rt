// Choices for the adversary, as the table writes them.
ghost use Rattle.std.specs.Prelude.{◌≤◌, length, IfOk};

use super::digits::pair;
use super::fault::PlayFault;
use adversary::{Arrival, Choice};

// Nothing goes wrong, and a starting sensor goes on starting.
fn plain() -> Choice {
    Choice {
        starts_before: false,
        ..Choice::clean()
    }
}

// A choice: each letter, with its digit pairs, changes something of the plain one. The letter says how many pairs follow it,
// so what is left comes from the step.
pub fn choice_of(letters: &[u8]) -> Result<Choice, PlayFault> {
    let mut choice = plain();
    let mut left = letters;
    while let [first, tail @ ..] = left {
        left = letter(&mut choice, *first, tail)?;
    }
    Ok(choice)
}

// One letter; what follows it.
fn letter<'t>(choice: &mut Choice, first: u8, tail: &'t [u8]) -> Result<&'t [u8], PlayFault>
    ensures { IfOk result (λ rest. length rest.now ≤ length tail.now) }
{
    match first {
        b'.' => {}
        b'b' => choice.starts_before = true,
        b'a' => choice.starts_after = true,
        b'u' => choice.heard = false,
        b'x' => choice.obeys = false,
        b'w' => choice.working = true,
        b'k' => choice.rests = false,
        b'l' => choice.arrival = Arrival::Lost,
        _ => return letter_with_byte(choice, first, tail),
    }
    Ok(tail)
}

// One letter with a byte; the byte at a place is changed to the one that follows.
fn letter_with_byte<'t>(
    choice: &mut Choice,
    first: u8,
    tail: &'t [u8],
) -> Result<&'t [u8], PlayFault>
    ensures { IfOk result (λ rest. length rest.now ≤ length tail.now) }
{
    let (byte, rest) = first_byte(tail)?;
    match first {
        b's' => choice.status = byte,
        b'n' => choice.busy = byte,
        b't' => choice.arrival = Arrival::Cut { at: byte },
        b'v' => choice.shown = [byte; 4],
        b'c' => {
            let (to, rest) = first_byte(rest)?;
            choice.arrival = Arrival::Changed { at: byte, to };
            return Ok(rest);
        }
        _ => return Err(PlayFault::NoPlay),
    }
    Ok(rest)
}

// The byte of the digit pair in front, and what follows it.
fn first_byte(text: &[u8]) -> Result<(u8, &[u8]), PlayFault>
    ensures { IfOk result (λ r. length r.1.now ≤ length text.now) }
{
    let (digits, rest) = text.split_at_checked(2).ok_or(PlayFault::NoPlay)?;
    Ok((pair(digits)?, rest))
}
