// Frames as I2C strings: a start, each byte as two digits and a space, `P`, a line feed.
ghost use Rattle.std.specs.Prelude.{◌≡◌, ◌+◌, ◌*◌, ◌<◌, ◌≤◌, ◌++◌, length, drop, IfOk};
ghost use Rattle.std.specs.List.{flat_map};
ghost use Rattle.checksum.specs.Capitals.{capital};
ghost use Rattle.checksum.specs.Outcomes.{map_ok};
ghost use Rattle.bootloader.specs.Commands.{meaning};
ghost use Rattle.bootloader.specs.Frames.{laid_over};
ghost use Rattle.bootloader.specs.Strings.{spelled, strung, command_string, string_within};

use super::command::Command;
use super::fault::FrameFault;
use super::frame::LONGEST_FRAME;

// The start of a string that writes to the bootloader: device 0x41, register 0x08.
const TO_BOOTLOADER: &[u8; 10] = b"S 41 W 08 ";

// The end of every string.
const STOP: &[u8; 2] = b"P\n";

// The length of the longest frame's string.
const LONGEST_STRING: usize = 405;

impl Command<'_> {
    // The command's frame as a string at the buffer's front, and its length.
    pub fn write_string(&self, buf: &mut [u8]) -> Result<usize, FrameFault>
        ensures result { result ≡ map_ok length (string_within (length buf.old) (meaning self.now)) }
        ensures after { buf.new ≡ laid_over buf.old (string_within (length buf.old) (meaning self.now)) }
        ensures bound { IfOk result (λ n. n ≤ 405) }
    {
        if buf.len() < LONGEST_STRING {
            return Err(FrameFault::StringBufferTooShort);
        }
        self.lay_string(buf)
    }

    // The same, into a buffer that any string goes into.
    #[tactic(auto, using(crate::proofs::Spelling::length_strung))]
    fn lay_string(&self, buf: &mut [u8]) -> Result<usize, FrameFault>
        requires { 405 ≤ length buf.old }
        ensures result { result ≡ map_ok length (command_string (meaning self.now)) }
        ensures after { buf.new ≡ laid_over buf.old (command_string (meaning self.now)) }
        ensures bound { IfOk result (λ n. n ≤ 405) }
    {
        let mut frame = [0; LONGEST_FRAME];
        let n = self.encode(&mut frame)?;
        Ok(put_string(TO_BOOTLOADER, &frame[..n], buf))
    }
}

// The string of the start and the bytes at the buffer's front, and its length.
#[tactic(auto, using(crate::proofs::Spelling::length_strung))]
fn put_string(start: &[u8], bytes: &[u8], buf: &mut [u8]) -> usize
    requires { length start.now + 3 * length bytes.now + 2 ≤ length buf.old }
    ensures result { result ≡ length (strung start.now bytes.now) }
    ensures after { buf.new ≡ strung start.now bytes.now ++ drop (length (strung start.now bytes.now)) buf.old }
{
    let from = start.len();
    let end = from + 3 * bytes.len();
    buf[..from].copy_from_slice(start);
    spell(bytes, &mut buf[from..end]);
    buf[end..end + 2].copy_from_slice(STOP);
    end + 2
}

// The bytes, each as two digits and a space, which fill the buffer. By index: nothing is known of what `chunks_exact_mut` wrote.
fn spell(bytes: &[u8], buf: &mut [u8])
    requires { length buf.old ≡ 3 * length bytes.now }
    ensures { buf.new ≡ flat_map spelled bytes.now }
{
    for (i, b) in bytes.iter().enumerate() {
        buf[3 * i..3 * i + 3].copy_from_slice(&in_digits(*b));
    }
}

// A byte as two digits and a space.
fn in_digits(b: u8) -> [u8; 3]
    ensures { result ≡ spelled b }
{
    [digit(b / 16), digit(b % 16), b' ']
}

// A digit of base 16, capital from ten on.
#[tactic(auto, unfolding(checksum::specs::Capitals::capital))]
fn digit(value: u8) -> u8
    requires { value < 16 }
    ensures { result ≡ capital value }
{
    if value < 10 {
        b'0' + value
    } else {
        b'A' + (value - 10)
    }
}
