// Whether a line's characters are a record.
ghost use Rattle.std.specs.Prelude.{◌≡◌, ◌+◌, ◌*◌, ◌^◌, ◌<◌, length, if◌then◌else◌, Some, None, OnOk, slice_index};
ghost use Rattle.hexline.specs.Faults.{decided};
ghost use Rattle.hexline.specs.Records.{bytes_on, count_on, address_on, data_digits, has_stray, stray_on};
ghost use Rattle.hexline.specs.Lines.{form_rules};

use super::digits::{byte_at, sum_of_pairs, value};
use super::fault::TextFault;
use super::spot::Spot;

// What the bytes of a line add up to, modulo 256.
const WHOLE_SUM: u8 = 0;

// The byte number `k` of the line, from its count on; 0 where it has none.
#[tactic(auto, using(crate::proofs::Pairs::get_or_pairs_past))]
pub fn byte_on(chars: &[u8], k: u8) -> u8
    ensures { result ≡ slice_index (bytes_on chars.now) k }
{
    match chars {
        [_, digits @ ..] => byte_at(digits, k),
        [] => 0,
    }
}

// The address on a line, high byte first.
pub fn address_on(chars: &[u8]) -> u16
    ensures { result ≡ address_on chars.now }
{
    u16::from_be_bytes([byte_on(chars, 1), byte_on(chars, 2)])
}

// The data digits on a line, as far as it has them.
pub fn data_digits(chars: &[u8]) -> &[u8]
    ensures { result.now ≡ data_digits chars.now }
{
    let count = 2 * byte_on(chars, 0) as usize;
    let rest = chars.get(9..).unwrap_or(b"");
    rest.get(..count).unwrap_or(rest)
}

// The place in the line of the first character after the colon that is no digit.
fn stray(chars: &[u8]) -> Option<usize>
    ensures { result ≡ (if has_stray chars.now then Some (stray_on chars.now) else None) }
{
    let after = chars.iter().skip(1).position(|c| value(*c).is_none());
    after.map(|k| 1 + k)
}

// A colon, digits only, as many as the count asks for, and the sum 0.
pub fn check_form(chars: &[u8], line: usize, place: u32) -> Result<(), TextFault>
    ensures result { result ≡ decided (form_rules line place chars.now) tt }
    ensures long { OnOk result (length chars.now ≡ 11 + 2 * count_on chars.now) }
{
    let at = Spot {
        line,
        place: place as usize,
    };
    let [b':', digits @ ..] = chars else {
        return Err(TextFault::NoColon(at));
    };
    if let Some(k) = stray(chars) {
        let place = at.place + k;
        return Err(TextFault::NoDigit(Spot { place, ..at }));
    }
    if digits.len() < 2 || digits.len() != 10 + 2 * byte_at(digits, 0) as usize {
        return Err(TextFault::WrongLength(at));
    }
    if sum_of_pairs(digits) != WHOLE_SUM {
        return Err(TextFault::WrongSum(at));
    }
    Ok(())
}
