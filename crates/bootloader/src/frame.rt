// Commands as frames: command code, SIZE, SIZE data bytes, CSUM.
ghost use Rattle.std.specs.Prelude.{◌≡◌, ◌+◌, ◌≤◌, ◌++◌, length, take, drop, IfOk, OnOk};
ghost use Rattle.checksum.specs.Outcomes.{map_ok};
ghost use Rattle.bootloader.specs.Commands.{meaning};
ghost use Rattle.bootloader.specs.Frames.{csum_of, framed, frame_of, room_for, frame_within, encode_of, laid_over, command_of, decode_of};
ghost use Rattle.bootloader.specs.Laws.{ReadsBack, NoticesChange, NoticesCut};

use super::command::Command;
use super::fault::FrameFault;

// The command codes, as they are sent.
const RAM_REMAP_RESET: u8 = 0x11;

const ROM_REMAP_RESET: u8 = 0x12;

const DOWNLOAD_INIT: u8 = 0x14;

const WRITE_RAM: u8 = 0x41;

const ADDR_RAM: u8 = 0x43;

// The one data byte of a download's beginning.
const SEED: u8 = 0x29;

// The most data bytes in a frame.
const MOST_DATA: usize = 128;

// The length of the longest frame.
pub const LONGEST_FRAME: usize = MOST_DATA + 3;

impl Command<'_> {
    // The command's frame at the buffer's front, and its length.
    #[tactic(auto, using(crate::proofs::Laying::length_framed))]
    pub fn encode(&self, buf: &mut [u8]) -> Result<usize, FrameFault>
        ensures result { result ≡ map_ok length (encode_of (length buf.old) (meaning self.now)) }
        ensures after { buf.new ≡ laid_over buf.old (encode_of (length buf.old) (meaning self.now)) }
        ensures bound { IfOk result (λ n. (n ≤ length buf.old) × (n ≤ 131)) }
        ensures front { IfOk result (λ n. take n buf.new ≡ frame_of (meaning self.now)) }
        ensures back { ReadsBack (meaning self.now) result buf.new }
    {
        self.lay(buf)
    }

    // The same, told apart by the command.
    fn lay(&self, buf: &mut [u8]) -> Result<usize, FrameFault>
        ensures result { result ≡ map_ok length (encode_of (length buf.old) (meaning self.now)) }
        ensures after { buf.new ≡ laid_over buf.old (encode_of (length buf.old) (meaning self.now)) }
    {
        match self {
            Command::RamRemapReset => put_frame(RAM_REMAP_RESET, &[], buf),
            Command::RomRemapReset => put_frame(ROM_REMAP_RESET, &[], buf),
            Command::DownloadInit => put_frame(DOWNLOAD_INIT, &[SEED], buf),
            Command::WriteRam(bytes) => put_frame(WRITE_RAM, bytes, buf),
            Command::AddrRam(address) => put_frame(ADDR_RAM, &address.to_le_bytes(), buf),
        }
    }
}

// The command that a frame says: its length is looked at first, then CSUM, then the table.
#[tactic(auto, using(crate::proofs::Changing::change_refused, crate::proofs::Changing::cut_refused), unfolding(crate::specs::Frames::decode_of))]
pub fn decode(frame: &[u8]) -> Result<Command<'_>, FrameFault>
    ensures value { map_ok meaning result ≡ decode_of frame.now }
    ensures change { NoticesChange frame.now }
    ensures cut { NoticesCut frame.now }
{
    let [code, size, payload @ .., check] = frame else {
        return Err(FrameFault::WrongLength);
    };
    if payload.len() != usize::from(*size) {
        return Err(FrameFault::WrongLength);
    }
    if *check != csum(&frame[..frame.len() - 1]) {
        return Err(FrameFault::WrongChecksum);
    }
    command_of(*code, payload)
}

// What stands after these bytes in a frame.
fn csum(bytes: &[u8]) -> u8
    ensures { result ≡ csum_of bytes.now }
{
    255 - checksum::sum(bytes)
}

// A frame of the code and the data bytes at the buffer's front, and its length.
fn put_frame(code: u8, payload: &[u8], buf: &mut [u8]) -> Result<usize, FrameFault>
    ensures result { result ≡ map_ok length (frame_within (length buf.old) code payload.now) }
    ensures after { buf.new ≡ laid_over buf.old (frame_within (length buf.old) code payload.now) }
{
    check_room(buf.len(), payload.len())?;
    Ok(fill_frame(code, payload, buf))
}

// Whether a frame with so many data bytes goes into so many bytes.
fn check_room(room: usize, size: usize) -> Result<(), FrameFault>
    ensures value { result ≡ room_for room size }
    ensures bound { OnOk result ((size ≤ 128) × (size + 3 ≤ room)) }
{
    if size > MOST_DATA {
        return Err(FrameFault::DataTooLong);
    }
    if room < size + 3 {
        return Err(FrameFault::BufferTooShort);
    }
    Ok(())
}

// The frame at the front of a buffer that it goes into, and its length.
#[tactic(auto, using(crate::proofs::Laying::length_framed))]
fn fill_frame(code: u8, payload: &[u8], buf: &mut [u8]) -> usize
    requires { (length payload.now ≤ 128) × (length payload.now + 3 ≤ length buf.old) }
    ensures result { result ≡ length (framed code payload.now) }
    ensures after { buf.new ≡ framed code payload.now ++ drop (length (framed code payload.now)) buf.old }
{
    let end = payload.len() + 2;
    buf[0] = code;
    buf[1] = payload.len() as u8;
    buf[2..end].copy_from_slice(payload);
    buf[end] = csum(&buf[..end]);
    end + 1
}

// The command that the table has for the code and the data bytes.
fn command_of(code: u8, payload: &[u8]) -> Result<Command<'_>, FrameFault>
    ensures { map_ok meaning result ≡ command_of code payload.now }
{
    match (code, payload) {
        (RAM_REMAP_RESET, []) => Ok(Command::RamRemapReset),
        (ROM_REMAP_RESET, []) => Ok(Command::RomRemapReset),
        (DOWNLOAD_INIT, [SEED]) => Ok(Command::DownloadInit),
        (WRITE_RAM, bytes) if bytes.len() <= MOST_DATA => Ok(Command::WriteRam(bytes)),
        (ADDR_RAM, [low, high]) => Ok(Command::AddrRam(u16::from_le_bytes([*low, *high]))),
        _ => Err(FrameFault::UnknownCommand),
    }
}
