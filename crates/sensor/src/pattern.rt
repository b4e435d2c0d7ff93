// Bit patterns of a byte.
ghost use Rattle.std.specs.Prelude.{◌≡◌, ◌==◌, bit_and, bit_or};

// Some bits are fixed and some free; a bit that is neither is not looked at, and is written as 0.
#[derive(Clone, Copy, PartialEq, Eq, Debug)]
pub struct Pattern {
    // Which bits are fixed, and what they are.
    pub fixed: u8,
    pub bits: u8,
    // Which bits are free.
    pub free: u8,
}

impl Pattern {
    // Whether a value has the fixed bits.
    pub fn fits(self, value: u8) -> bool
        ensures { result ≡ (bit_and value self.fixed == self.bits) }
    {
        value & self.fixed == self.bits
    }

    // The fixed bits, with the free ones of a value.
    pub fn filled_from(self, value: u8) -> u8
        ensures { result ≡ bit_or self.bits (bit_and value self.free) }
    {
        self.bits | value & self.free
    }
}
