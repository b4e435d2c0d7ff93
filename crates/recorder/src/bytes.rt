// The bytes of one exchange.
ghost use Rattle.std.specs.Prelude.{◌≡◌, ◌<◌, ◌≤◌, length, MatchResult};

use sensor::MOST_WRITTEN;
use std::error::Error;
use std::fmt;
use std::marker::Model;

// More bytes than an exchange has.
#[derive(Clone, Copy, PartialEq, Eq, Debug)]
pub struct TooMany;

impl fmt::Display for TooMany {
    ghost use Rattle.std.specs.Prelude.{Some, codes};

    ghost output = { λ _. Some (codes "an exchange has at most 131 bytes") };

    fn fmt<W: fmt::Write>(&self, f: &mut fmt::Formatter<W>) -> fmt::Result {
        f.pad("an exchange has at most 131 bytes")
    }
}

impl Error for TooMany {}

// A buffer with its length, since no exchange may take memory.
#[derive(Clone, Copy, PartialEq, Eq, Debug)]
pub struct Bytes {
    // The bytes, and zeros after them.
    all: [u8; MOST_WRITTEN],
    len: usize,
}

// Clauses see the bytes.
impl Model for Bytes {
    ghost use Rattle.std.specs.Prelude.{List, ℕ};

    ghost Value = { List ℕ };

    ghost use Rattle.std.specs.Prelude.{take};
    ghost use Rattle.recorder.specs.Padded.{IsPadded, padded, padded_back};

    ghost view = { λ b. take b.len b.all };

    ghost invariant = { IsPadded };

    ghost inverse = { padded };

    ghost inverse_ok = { padded_back };
}

impl Bytes {
    // At most as many as a link writes.
    pub(crate) fn of(bytes: &[u8]) -> Bytes
        requires { length bytes.now ≤ 131 }
        ensures { result ≡ bytes.now }
    {
        let mut all = [0; MOST_WRITTEN];
        all[..bytes.len()].copy_from_slice(bytes);
        Bytes {
            all,
            len: bytes.len(),
        }
    }

    pub fn as_slice(&self) -> &[u8]
        ensures { result.now ≡ self.now }
    {
        &self.all[..self.len]
    }
}

impl TryFrom<&[u8]> for Bytes {
    type Error = TooMany;

    ghost try_from_gives = { λ bytes r. MatchResult r (λ b. b ≡ bytes.now) (λ _. 131 < length bytes.now) };

    fn try_from(bytes: &[u8]) -> Result<Bytes, TooMany> {
        if bytes.len() > MOST_WRITTEN {
            return Err(TooMany);
        }
        Ok(Bytes::of(bytes))
    }
}
