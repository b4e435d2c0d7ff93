// The strings of a patch.
ghost use Rattle.std.specs.Prelude.{◌≡◌, ◌<◌, ◌≤◌, false, ◌++◌, length, IfOk, None, Ok, Err, MatchResult, OnOk, ◌≢◌};
ghost use Rattle.std.specs.List.{flat_map};
ghost use Rattle.ihex.specs.Named.{reaches};
ghost use Rattle.ihex.specs.Frames.{frames_of};
ghost use Rattle.ihex.specs.Patches.{text_in};
ghost use Rattle.ihex.specs.Walks.{said_frame};
ghost use Rattle.bootloader.specs.Commands.{meaning, payload_of, write_ram};
ghost use Rattle.listings.specs.declared.fault.ProgramFault.TheVariants.{Memory};
ghost use Rattle.listings.specs.Listed.{addressed, writes};
ghost use Rattle.listings.specs.Outputs.{command_string, strings_of, listed};

use super::fault::ProgramFault;
use bootloader::Command;
use card::read_card;
use ihex::{DataFrame, Patch, TextFault};
use std::alloc::{AllocError, Global};

// The longest text that is listed, and the window of a TMF8X0X.
const LONGEST_INPUT: usize = 65536;

const WINDOW: u32 = 16384;

// One command's string more.
fn push_command(out: &mut Vec<u8>, command: &Command<'_>) -> Result<(), AllocError>
    requires { length (payload_of (meaning command.now)) ≤ 128 }
    ensures { OnOk result (out.new.items ≡ out.old.items ++ command_string (meaning command.now)) }
{
    let mut string = [0u8; 405];
    let len = command.write_string(&mut string).unwrap();
    out.extend_from_slice(&string[..len])?;
    Ok(())
}

// The address, unless the pointer stands at it.
fn push_address(out: &mut Vec<u8>, pointer: Option<usize>, start: usize) -> Result<(), AllocError>
    requires { start < 65536 }
    ensures { OnOk result (out.new.items ≡ out.old.items ++ flat_map command_string (addressed pointer start)) }
{
    if pointer == Some(start) {
        return Ok(());
    }
    push_command(out, &Command::addr_ram(start as u16))
}

// One frame more: its address, unless it starts where the one before it ended, and its bytes.
fn push_frame(
    out: &mut Vec<u8>,
    pointer: Option<usize>,
    frame: &DataFrame,
) -> Result<(), AllocError>
    requires { (frame.now.start < 65536) × (length (said_frame frame.now).bytes ≤ 128) }
    ensures { OnOk result (out.new.items ≡ (out.old.items ++ flat_map command_string (addressed pointer frame.now.start)) ++ command_string (write_ram (said_frame frame.now).bytes)) }
{
    push_address(out, pointer, frame.start)?;
    push_command(out, &Command::WriteRam(frame.data()))
}

// All frames of a patch that stays within the window.
fn push_frames(out: &mut Vec<u8>, patch: &Patch<'_>) -> Result<(), AllocError>
    requires { reaches 16384 (text_in patch.now) ≡ false }
    ensures { OnOk result (out.new.items ≡ out.old.items ++ flat_map command_string (writes None (frames_of (text_in patch.now)))) }
{
    let mut pointer = None;
    for frame in patch.data_frames() {
        push_frame(out, pointer, &frame)?;
        pointer = Some(frame.start + frame.data().len());
    }
    Ok(())
}

// The strings of a patch that stays within the window.
fn strings_of(heap: Global, patch: &Patch<'_>) -> Result<Vec<u8>, AllocError>
    requires { reaches 16384 (text_in patch.now) ≡ false }
    ensures { IfOk result (λ v. v.items ≡ strings_of (text_in patch.now)) }
{
    let mut out = Vec::new(heap);
    push_command(&mut out, &Command::download_init())?;
    push_frames(&mut out, patch)?;
    push_command(&mut out, &Command::ram_remap_reset())?;
    Ok(out)
}

// The strings that a clean TMF8X0X session writes to register 0x08, or why there are none.
pub fn list(heap: Global, text: &[u8]) -> Result<Vec<u8>, ProgramFault>
    ensures { MatchResult result (λ v. listed text.now ≡ Ok v.items) (λ e. (e ≢ Memory) → listed text.now ≡ Err e) }
{
    if text.len() > LONGEST_INPUT {
        return Err(ProgramFault::Text(TextFault::TooLong));
    }
    let mut row = [0u8; 255];
    let mut patch = Patch::example();
    read_card(&mut patch, text, &mut row)?;
    if patch.reaches(WINDOW) {
        return Err(ProgramFault::PastWindow);
    }
    Ok(strings_of(heap, &patch)?)
}
