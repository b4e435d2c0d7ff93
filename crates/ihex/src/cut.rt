// Where the first line of a text ends.
ghost use Rattle.std.specs.Prelude.{◌≡◌, ℕ, ◌+◌, ◌-◌, ◌<◌, ◌≤◌, ◌∷◌, ◌==◌, true, length};
ghost use Rattle.std.specs.List.{position};
ghost use Rattle.ihex.specs.Texts.{stretches, placed, trimmed};

// What may stand directly before the LF that ends a line.
const CR: u8 = b'\r';

// The place of the first LF.
fn feed(text: &[u8]) -> Option<usize>
    ensures { result ≡ position (λ c. c == 10) text.now }
{
    text.iter().position(|c| *c == b'\n')
}

// A line's characters up to its LF, without one CR before it.
fn trimmed(chars: &[u8]) -> &[u8]
    ensures { result.now ≡ trimmed (record { chars = chars.now; feed = true }) }
{
    chars.strip_suffix(&[CR]).unwrap_or(chars)
}

// The first line's characters without its end, and the text after it.
pub fn split_line(text: &[u8]) -> (&[u8], &[u8])
    requires { 0 < length text.now }
    ensures lines { (n p : ℕ) → placed n p (stretches text.now) ≡ record { number = n; place = p; chars = result.0.now } ∷ placed (n + 1) (p + (length text.now - length result.1.now)) (stretches result.1.now) }
    ensures within { (length result.1.now < length text.now) × (length result.0.now + length result.1.now ≤ length text.now) }
{
    match feed(text) {
        Some(end) => (trimmed(&text[..end]), &text[end + 1..]),
        None => (text, b""),
    }
}
