// One exchange with its answer, as it is kept.
ghost use Rattle.std.specs.Prelude.{◌≡◌, ◌≤◌, length, OnOk};
ghost use Rattle.sensor.specs.Exchanges.{writes, reads, acknowledged, filled, heard};
ghost use Rattle.recorder.specs.Kept.{kept, meaning, payload_of};

use super::bytes::Bytes;
use sensor::{Missed, can_write};

#[derive(Clone, Copy, PartialEq, Eq, Debug)]
pub enum Asked {
    Write,
    // A write of a size that a link does not have: its bytes are not kept.
    WriteOffSize(usize),
    // A read of so many bytes.
    Read(usize),
}

// A struct with an enum of numbers, since a `Vec` of an enum that holds the bytes gets no proof yet.
#[derive(Clone, Copy, PartialEq, Eq, Debug)]
pub struct Recorded {
    pub register: u8,
    pub asked: Asked,
    // Those of a write, or of a filled read.
    pub bytes: Bytes,
    pub answer: Result<(), Missed>,
}

impl Recorded {
    // The bytes that were written or read: none of a missed read, nor of a write of a size that a link does not have.
    pub fn payload(&self) -> &[u8]
        ensures { result.now ≡ payload_of self.now }
    {
        match (self.asked, self.answer) {
            (Asked::Write, _) | (Asked::Read(_), Ok(())) => self.bytes.as_slice(),
            _ => &[],
        }
    }

    // A write.
    pub(crate) fn of_write(register: u8, bytes: &[u8], answer: Result<(), Missed>) -> Recorded
        ensures { meaning result ≡ kept (writes register bytes.now) (heard answer acknowledged) }
    {
        let size = bytes.len();
        if !can_write(size) {
            return Recorded {
                register,
                asked: Asked::WriteOffSize(size),
                bytes: Bytes::of(&[]),
                answer,
            };
        }
        Recorded {
            register,
            asked: Asked::Write,
            bytes: Bytes::of(bytes),
            answer,
        }
    }

    // A read, with what the buffer has after it.
    pub(crate) fn of_read(register: u8, buf: &[u8], answer: Result<(), Missed>) -> Recorded
        requires { OnOk answer (length buf.now ≤ 131) }
        ensures { meaning result ≡ kept (reads register (length buf.now)) (heard answer (filled buf.now)) }
    {
        Recorded {
            register,
            asked: Asked::Read(buf.len()),
            bytes: Bytes::of(if answer.is_ok() { buf } else { &[] }),
            answer,
        }
    }
}
