// Digits of base 16.
ghost use Rattle.std.specs.Prelude.{◌≡◌, ◌<◌, IfOk};
ghost use Rattle.std.specs.Option.{ok_or};
ghost use Rattle.playing.specs.declared.fault.PlayFault.TheVariants.{NoPairs};
ghost use Rattle.playing.specs.Pairs.{value_of, byte_of};

use super::fault::PlayFault;
use std::alloc::Global;

// The value of a digit, capital from ten on.
pub fn digit(c: u8) -> Result<u8, PlayFault>
    ensures value { result ≡ ok_or (value_of c) NoPairs }
    ensures bound { IfOk result (λ d. d < 16) }
{
    match c {
        b'0'..=b'9' => Ok(c - b'0'),
        b'A'..=b'F' => Ok(c - b'A' + 10),
        _ => Err(PlayFault::NoPairs),
    }
}

// The byte of two digits.
pub fn pair(digits: &[u8]) -> Result<u8, PlayFault>
    ensures { result ≡ ok_or (byte_of digits.now) NoPairs }
{
    match digits {
        [high, low] => Ok(16 * digit(*high)? + digit(*low)?),
        _ => Err(PlayFault::NoPairs),
    }
}

// The bytes of digit pairs, which may have spaces between them.
pub fn paired(heap: Global, digits: &[u8]) -> Result<Vec<u8>, PlayFault> {
    let mut out = Vec::new(heap);
    let mut left = digits.iter();
    while let Some(high) = left.find(|c| **c != b' ') {
        let low = left.next().ok_or(PlayFault::NoPairs)?;
        out.push(pair(&[*high, *low])?)?;
    }
    Ok(out)
}
