// Digits, and the bytes that pairs of them stand for.
ghost use Rattle.std.specs.Prelude.{◌≡◌, ◌/◌, ◌<◌, min, ◌++◌, length, take, drop, IfOk, IfSome, slice_index};
ghost use Rattle.std.specs.Iterator.{item_count, YieldsFirst};
ghost use Rattle.std.specs.Option.{ok_or};
ghost use Rattle.checksum.specs.Sums.{sum256};
ghost use Rattle.hexline.specs.declared.fault.TextFault.TheVariants.{NoDigit};
ghost use Rattle.hexline.specs.Digits.{digit_of, pair_value, pairs};

use super::fault::TextFault;
use super::spot::Spot;

// What a digit stands for; any other character stands for nothing.
pub fn value(c: u8) -> Option<u8>
    ensures value { result ≡ digit_of c }
    ensures bound { IfSome result (λ d. d < 16) }
{
    match c {
        b'0'..=b'9' => Some(c - b'0'),
        b'A'..=b'F' => Some(c - b'A' + 10),
        b'a'..=b'f' => Some(c - b'a' + 10),
        _ => None,
    }
}

// The same. Every other character is refused with the spot given.
pub fn digit(c: u8, at: Spot) -> Result<u8, TextFault>
    ensures value { result ≡ ok_or (digit_of c) (NoDigit at) }
    ensures bound { IfOk result (λ d. d < 16) }
{
    value(c).ok_or(TextFault::NoDigit(at))
}

// The byte that two digits stand for; any other character counts as 0.
#[tactic(auto, unfolding(crate::specs::Digits::pair_value))]
fn pair(high: u8, low: u8) -> u8
    ensures { result ≡ pair_value high low }
{
    16 * value(high).unwrap_or(0) + value(low).unwrap_or(0)
}

// The bytes that digits stand for, two by two.
#[derive(Drop)]
struct Pairs<'t>(&'t [u8]);

impl Iterator for Pairs<'_> {
    type Item = u8;

    ghost next_gives = { YieldsFirst (λ s. pairs s.0.now) };

    ghost remaining = { item_count (λ s. pairs s.0.now) };

    fn next(&mut self) -> Option<u8> {
        let [high, low, rest @ ..] = self.0 else {
            return None;
        };
        self.0 = rest;
        Some(pair(*high, *low))
    }
}

// The sum modulo 256 of the bytes that the digits stand for.
pub fn sum_of_pairs(digits: &[u8]) -> u8
    ensures { result ≡ sum256 (pairs digits.now) }
{
    Pairs(digits).fold(0, |total: u8, byte| total.wrapping_add(byte))
}

// The byte number `k` that the digits stand for; 0 where they are too few.
pub fn byte_at(digits: &[u8], k: u8) -> u8
    ensures { result ≡ slice_index (pairs digits.now) k }
{
    let rest = digits.get(2 * k as usize..).unwrap_or(b"");
    Pairs(rest).next().unwrap_or(0)
}

// The bytes that the digits stand for, as many as the row has room for, into its front; and how many.
pub fn decode(digits: &[u8], row: &mut [u8]) -> usize
    ensures count { result ≡ min (length digits.now / 2) (length row.old) }
    ensures after { row.new ≡ take result (pairs digits.now) ++ drop result row.old }
{
    let count = (digits.len() / 2).min(row.len());
    // by place: no proof sees what is written through `row.iter_mut().zip(..)`
    for (i, byte) in Pairs(digits).take(count).enumerate() {
        row[i] = byte;
    }
    count
}
