// The bytes that a field stands for: `\n`, `\r`, `\s`, `\\` and `\xHH` are one byte each, `\*N{..}` repeats what is in the braces.
ghost use Rattle.std.specs.Prelude.{◌≤◌, ◌<◌, length, IfOk};

use super::fault::TableFault;
use playing::pair;
use std::alloc::Global;

// What is in the braces, how often, and what follows them in the field.
#[derive(Clone, Copy)]
struct Repeat<'t> {
    times: usize,
    inner: &'t [u8],
    rest: &'t [u8],
}

// The first byte that a field stands for, and what follows it.
fn first_byte(first: u8, tail: &[u8]) -> Result<(u8, &[u8]), TableFault>
    ensures { IfOk result (λ s. length s.1.now ≤ length tail.now) }
{
    if first != b'\\' {
        return Ok((first, tail));
    }
    match tail {
        [b'n', rest @ ..] => Ok((b'\n', rest)),
        [b'r', rest @ ..] => Ok((b'\r', rest)),
        [b's', rest @ ..] => Ok((b' ', rest)),
        [b'\\', rest @ ..] => Ok((b'\\', rest)),
        [b'x', high, low, rest @ ..] => Ok((pair(&[*high, *low])?, rest)),
        _ => Err(TableFault::NoEscape),
    }
}

// Bytes with no repetition among them. An escape says how many characters it has, so what is left comes from the step.
fn push_plain(out: &mut Vec<u8>, part: &[u8]) -> Result<(), TableFault> {
    let mut left = part;
    while let [first, tail @ ..] = left {
        let (byte, rest) = first_byte(*first, tail)?;
        out.push(byte)?;
        left = rest;
    }
    Ok(())
}

// The decimal number at the front, which stops at the largest, and what follows it.
fn number(part: &[u8]) -> (usize, &[u8])
    ensures { length result.1.now ≤ length part.now }
{
    let end = part.iter().position(|c| !c.is_ascii_digit());
    let (digits, rest) = part.split_at(end.unwrap_or(part.len()));
    let value = digits.iter().fold(0usize, |value, digit| {
        value
            .saturating_mul(10)
            .saturating_add(digit.saturating_sub(b'0') as usize)
    });
    (value, rest)
}

// A repetition, after its `\*`.
fn first_repeat(part: &[u8]) -> Result<Repeat<'_>, TableFault>
    ensures { IfOk result (λ s. length s.rest.now ≤ length part.now) }
{
    let (times, rest) = number(part);
    let [b'{', inside @ ..] = rest else {
        return Err(TableFault::NoEscape);
    };
    let close = inside
        .iter()
        .position(|c| *c == b'}')
        .ok_or(TableFault::NoEscape)?;
    Ok(Repeat {
        times,
        inner: &inside[..close],
        rest: &inside[close + 1..],
    })
}

// All that a field stands for.
pub fn expanded(heap: Global, field: &str) -> Result<Vec<u8>, TableFault> {
    let mut out = Vec::new(heap);
    let mut left = field.as_bytes();
    while let [first, tail @ ..] = left {
        if let [b'\\', b'*', part @ ..] = left {
            let Repeat { times, inner, rest } = first_repeat(part)?;
            for _ in 0..times {
                push_plain(&mut out, inner)?;
            }
            left = rest;
        } else {
            let (byte, rest) = first_byte(*first, tail)?;
            out.push(byte)?;
            left = rest;
        }
    }
    Ok(out)
}
