// What the libraries answer to the texts of the table.
ghost use Rattle.std.specs.Prelude.{◌≡◌, ◌++◌, replicate, IfOk, string_bytes, codes, decimal};
ghost use Rattle.hexline.specs.Faults.{number_of, line_in, place_in};

use super::fault::TableFault;
use bootloader::{Reply, read_reply};
use hexline::{Line, Spot, TextFault, read_line};
use ihex::{DataFrames, Patch, check_text};
use listings::{ProgramFault, answer};
use std::alloc::{AllocError, Global};

// What a call answers in words, and what comes out besides.
#[derive(Drop)]
pub struct Answer {
    pub words: Vec<u8>,
    pub after: Vec<u8>,
}

// Memory to lend, so many bytes 0xA5.
pub fn lent(heap: Global, room: usize) -> Result<Vec<u8>, AllocError>
    ensures { IfOk result (λ v. v.items ≡ replicate room 0xA5) }
{
    vec![in heap; 0xA5; room]
}

// A refusal in words, as the listing prints it.
fn fault_words(heap: Global, fault: TextFault) -> Result<String, AllocError>
    ensures { IfOk result (λ s. string_bytes s ≡ codes "fault " ++ (decimal (number_of fault) ++ (codes " " ++ (decimal (line_in fault) ++ (codes " " ++ decimal (place_in fault)))))) }
{
    ProgramFault::Text(fault).to_string(heap)
}

// A line in words.
fn line_words(heap: Global, line: &Line<'_>) -> Result<String, AllocError> {
    let digits = line.digits().escape_ascii();
    match line {
        Line::Data {
            address,
            at: Spot { line, place },
            ..
        } => format!(in heap; "data {address} [{digits}] line {line} place {place}"),
        Line::End {
            at: Spot { line, place },
            ..
        } => format!(in heap; "end [{digits}] line {line} place {place}"),
        Line::Base {
            upper,
            at: Spot { line, place },
            ..
        } => format!(in heap; "base {upper} [{digits}] line {line} place {place}"),
        Line::Start {
            at: Spot { line, place },
            ..
        } => format!(in heap; "start [{digits}] line {line} place {place}"),
    }
}

// A single line, and the row after it.
pub fn line_answer(heap: Global, room: usize, chars: &[u8]) -> Result<Answer, TableFault> {
    let mut row = lent(heap, room)?;
    let words = match read_line(chars, row.as_mut_slice()) {
        Ok(line) => line_words(heap, &line)?,
        Err(fault) => fault_words(heap, fault)?,
    };
    Ok(Answer {
        words: words.into_bytes(),
        after: row,
    })
}

// A whole text in words.
fn text_words(heap: Global, read: Result<(), TextFault>) -> Result<String, AllocError> {
    match read {
        Ok(()) => String::from_str(heap, "accepted"),
        Err(fault) => fault_words(heap, fault),
    }
}

// A whole text, and the row after it.
pub fn text_answer(heap: Global, room: usize, text: &[u8]) -> Result<Answer, TableFault> {
    let mut row = lent(heap, room)?;
    let read = check_text(text, row.as_mut_slice());
    Ok(Answer {
        words: text_words(heap, read)?.into_bytes(),
        after: row,
    })
}

// What the example's patch holds after a text was read into it: its data frames, and their bytes.
pub fn patch_answer(heap: Global, room: usize, text: &[u8]) -> Result<Answer, TableFault> {
    let mut row = lent(heap, room)?;
    let mut patch = Patch::example();
    let read = patch.read(text, row.as_mut_slice());
    let mut words = text_words(heap, read)?;
    let count = patch.frame_count();
    write!(words, ", {count} frames:")?;
    let after = push_frames(heap, &mut words, patch.data_frames())?;
    Ok(Answer {
        words: words.into_bytes(),
        after,
    })
}

// The frames in words: number, start, length and line.
fn push_frames(
    heap: Global,
    words: &mut String,
    frames: DataFrames<'_>,
) -> Result<Vec<u8>, TableFault> {
    let mut bytes = Vec::new(heap);
    for frame in frames {
        let mark = if frame.number > 0 { ";" } else { "" };
        let number = frame.number;
        let start = frame.start;
        let len = frame.data().len();
        let line = frame.line;
        write!(words, "{mark} {number} {start} {len} {line}")?;
        bytes.extend_from_slice(frame.data())?;
    }
    Ok(bytes)
}

// A status reply.
pub fn reply_answer(heap: Global, bytes: &[u8]) -> Result<Answer, TableFault> {
    let words = match read_reply(bytes) {
        Reply::Ready => String::from_str(heap, "ready")?,
        Reply::Refused(status) => format!(in heap; "refused {status}")?,
        Reply::Busy(status) => format!(in heap; "busy {status}")?,
        Reply::Spoiled => String::from_str(heap, "spoiled")?,
    };
    Ok(Answer {
        words: words.into_bytes(),
        after: Vec::new(heap),
    })
}

// The whole output for a text, after the exit status.
pub fn listing_answer(heap: Global, text: &[u8]) -> Result<Answer, TableFault> {
    let (status, bytes) = match answer(heap, text)? {
        Ok(strings) => ("status 0\n", strings),
        Err(line) => ("status 1\n", line),
    };
    let mut words = String::from_str(heap, status)?.into_bytes();
    words.extend_from_slice(bytes.as_slice())?;
    Ok(Answer {
        words,
        after: Vec::new(heap),
    })
}
