// What the libraries answer to the frames of the table.
ghost use Rattle.std.specs.Prelude.{◌≡◌, ◌++◌, IfOk, string_bytes, codes, decimal};
ghost use Rattle.bootloader.specs.Faults.{number_of};

use super::answers::{Answer, lent};
use super::fault::TableFault;
use bootloader::{Command, FrameFault, decode};
use playing::paired;
use std::alloc::{AllocError, Global};
use std::str::from_utf8;

// The command's name, and the digit pairs after it.
fn command_parts(input: &[u8]) -> Result<(&str, &str), TableFault> {
    let Ok(words) = from_utf8(input) else {
        return Err(TableFault::NoCommand);
    };
    Ok(words.split_once(' ').unwrap_or((words, "")))
}

// The command of that name, with these bytes; an address has its high byte first.
fn command_of<'a>(name: &str, bytes: &'a [u8]) -> Result<Command<'a>, TableFault> {
    match (name, bytes) {
        ("RAMREMAP_RESET", []) => Ok(Command::RamRemapReset),
        ("ROMREMAP_RESET", []) => Ok(Command::RomRemapReset),
        ("DOWNLOAD_INIT", []) => Ok(Command::DownloadInit),
        ("W_RAM", _) => Ok(Command::WriteRam(bytes)),
        ("ADDR_RAM", [high, low]) => Ok(Command::AddrRam(u16::from_be_bytes([*high, *low]))),
        _ => Err(TableFault::NoCommand),
    }
}

// A refusal in words.
fn fault_words(heap: Global, fault: FrameFault) -> Result<String, AllocError>
    ensures { IfOk result (λ s. string_bytes s ≡ codes "fault " ++ decimal (number_of fault)) }
{
    let number = fault.number();
    format!(in heap; "fault {number}")
}

// What a command writes into memory that is lent, by a way of writing; and that memory afterwards.
fn written<F: FnOnce(&Command<'_>, &mut [u8]) -> Result<usize, FrameFault>>(
    heap: Global,
    room: usize,
    input: &[u8],
    write: F,
) -> Result<(Result<usize, FrameFault>, Vec<u8>), TableFault>
    requires { F.IsAlwaysCallable write }
{
    let (name, digits) = command_parts(input)?;
    let bytes = paired(heap, digits.as_bytes())?;
    let command = command_of(name, bytes.as_slice())?;
    let mut buf = lent(heap, room)?;
    let len = write(&command, buf.as_mut_slice());
    Ok((len, buf))
}

// A command's frame: its length, and the buffer afterwards.
pub fn encode_answer(heap: Global, room: usize, input: &[u8]) -> Result<Answer, TableFault> {
    let (len, after) = written(heap, room, input, |command, buf| command.encode(buf))?;
    let words = match len {
        Ok(len) => format!(in heap; "{len} bytes")?,
        Err(fault) => fault_words(heap, fault)?,
    };
    Ok(Answer {
        words: words.into_bytes(),
        after,
    })
}

// What a frame says, and the bytes that a W_RAM has.
pub fn decode_answer(heap: Global, frame: &[u8]) -> Result<Answer, TableFault> {
    let mut after = Vec::new(heap);
    let words = match decode(frame) {
        Ok(Command::RamRemapReset) => String::from_str(heap, "RAMREMAP_RESET")?,
        Ok(Command::RomRemapReset) => String::from_str(heap, "ROMREMAP_RESET")?,
        Ok(Command::DownloadInit) => String::from_str(heap, "DOWNLOAD_INIT")?,
        Ok(Command::WriteRam(bytes)) => {
            after.extend_from_slice(bytes)?;
            String::from_str(heap, "W_RAM")?
        }
        Ok(Command::AddrRam(address)) => format!(in heap; "ADDR_RAM {address}")?,
        Err(fault) => fault_words(heap, fault)?,
    };
    Ok(Answer {
        words: words.into_bytes(),
        after,
    })
}

// A command's string, and the buffer behind it.
pub fn string_answer(heap: Global, room: usize, input: &[u8]) -> Result<Answer, TableFault> {
    let (len, buf) = written(heap, room, input, |command, buf| command.write_string(buf))?;
    match len {
        Ok(len) => {
            let (string, rest) = buf.as_slice().split_at(len.min(buf.len()));
            Ok(Answer {
                words: Vec::from_slice(heap, string)?,
                after: Vec::from_slice(heap, rest)?,
            })
        }
        Err(fault) => Ok(Answer {
            words: fault_words(heap, fault)?.into_bytes(),
            after: buf,
        }),
    }
}
