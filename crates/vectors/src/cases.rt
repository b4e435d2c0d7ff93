// Runs a case, and compares what came with what the table says.
ghost use Rattle.std.specs.Prelude.{◌≡◌, Decides};

use super::answers::{
    Answer, line_answer, listing_answer, patch_answer, reply_answer, text_answer,
};
use super::fault::TableFault;
use super::frames::{decode_answer, encode_answer, string_answer};
use super::notation::expanded;
use super::table::{Case, Group};
use playing::paired;
use std::alloc::{AllocError, Global};

// What the library answers to the case.
fn answered(heap: Global, case: &Case<'_>) -> Result<Answer, TableFault> {
    let input = expanded(heap, case.input)?;
    let input = input.as_slice();
    match case.group {
        Group::Lines => line_answer(heap, case.room, input),
        Group::Texts => text_answer(heap, case.room, input),
        Group::Patches => patch_answer(heap, case.room, input),
        Group::Encode => encode_answer(heap, case.room, input),
        Group::Decode => decode_answer(heap, paired(heap, input)?.as_slice()),
        Group::Replies => reply_answer(heap, paired(heap, input)?.as_slice()),
        Group::Strings => string_answer(heap, case.room, input),
        Group::Listings => listing_answer(heap, input),
    }
}

// What is wrong with the library's answer to the case; nothing if it is what the table says.
pub fn check_case(heap: Global, case: &Case<'_>) -> Result<Option<String>, TableFault> {
    let came = answered(heap, case)?;
    let words = expanded(heap, case.answer)?;
    let after = paired(heap, expanded(heap, case.after)?.as_slice())?;
    if agrees(&came, words.as_slice(), after.as_slice()) {
        return Ok(None);
    }
    Ok(Some(told(heap, case, &came)?))
}

// Whether the words and the bytes that came are those that were wanted.
fn agrees(came: &Answer, words: &[u8], after: &[u8]) -> bool
    ensures { Decides result ((came.now.words.items ≡ words.now) × (came.now.after.items ≡ after.now)) }
{
    came.words.as_slice() == words && came.after.as_slice() == after
}

// Which case, what was wanted, and what came.
fn told(heap: Global, case: &Case<'_>, came: &Answer) -> Result<String, AllocError> {
    let group = case.group;
    let name = case.name;
    let answer = case.answer;
    let after = case.after;
    let words = came.words.as_slice().escape_ascii();
    let pairs = in_pairs(heap, came.after.as_slice())?;
    format!(in heap;
        "FAILED {group}, {name}: wanted '{answer}' and [{after}], got '{words}' and [{pairs}]"
    )
}

// The bytes in digit pairs.
fn in_pairs(heap: Global, bytes: &[u8]) -> Result<String, AllocError> {
    let mut out = String::new(heap);
    for byte in bytes {
        write!(out, " {byte:02X}")?;
    }
    Ok(out)
}
