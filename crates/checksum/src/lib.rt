// The sum of bytes modulo 256, which the text's lines and the frames share.
#![tactic(auto)]

ghost use Rattle.std.specs.Prelude.{◌≡◌};
ghost use Rattle.checksum.specs.Sums.{sum256};

// The sum of the bytes modulo 256.
pub fn sum(bytes: &[u8]) -> u8
    ensures { result ≡ sum256 bytes.now }
{
    bytes
        .iter()
        .fold(0, |total: u8, byte| total.wrapping_add(*byte))
}
