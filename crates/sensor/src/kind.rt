// The kinds of sensor.
ghost use Rattle.std.specs.Prelude.{◌≡◌, ℕ, refl};
ghost use Rattle.sensor.specs.declared.enable.Order.TheVariants.{Wake, Sleep};
ghost use Rattle.sensor.specs.declared.enable.Patterns.{Patterns};
ghost use Rattle.sensor.specs.declared.kind.TheConstants.{TMF8X0X_PATTERNS, TMF882X_PATTERNS};
ghost use Rattle.sensor.specs.Kinds.{KindIs, tmf8x0x, tmf882x, seen, enable_of, ordered, wake_byte, sleep_byte, ArePatternsOf};
ghost use Rattle.sensor.specs.Table.{tmf8x0x_patterns, tmf882x_patterns};

use super::enable::{Enable, Order, Patterns};
use super::pattern::Pattern;

pub trait Kind {
    // Bytes of RAM.
    const WINDOW: u32;

    // What APPID shows while the patch runs.
    const APPLICATION: u8;

    // The patterns of ENABLE.
    const PATTERNS: Patterns;

    // The constants, as clauses see them.
    ghost WINDOW: { ℕ };

    ghost APPLICATION: { ℕ };

    ghost PATTERNS: { Patterns };

    ghost kind: { KindIs };

    fn window_size() -> u32
        ensures { result ≡ kind.window }
    {
        Self::WINDOW
    }

    fn application_id() -> u8
        ensures { result ≡ kind.app }
    {
        Self::APPLICATION
    }

    // What a value read from ENABLE says.
    fn classify(value: u8) -> Enable
        ensures { result ≡ seen kind value }
    {
        if Self::PATTERNS.asleep.fits(value) {
            Enable::Asleep
        } else if Self::PATTERNS.starting.fits(value) {
            Enable::Starting
        } else if Self::PATTERNS.ready.fits(value) {
            Enable::Ready
        } else {
            Enable::Strange
        }
    }

    // The least value with which ENABLE says so.
    fn enable_value(says: Enable) -> u8
        ensures { result ≡ enable_of kind says }
    {
        match says {
            Enable::Asleep => Self::PATTERNS.asleep.bits,
            Enable::Starting => Self::PATTERNS.starting.bits,
            Enable::Ready => Self::PATTERNS.ready.bits,
            Enable::Strange => 0xFF,
        }
    }

    // What a byte written to ENABLE asks for.
    fn order(byte: u8) -> Order
        ensures { result ≡ ordered kind byte }
    {
        if Self::PATTERNS.wake.fits(byte) {
            Order::Wake
        } else if Self::PATTERNS.sleep.fits(byte) {
            Order::Sleep
        } else {
            Order::Other
        }
    }

    // The byte to wake with, after this value was last read from ENABLE.
    fn wake_byte(last: u8) -> u8
        ensures value { result ≡ wake_byte kind last }
        ensures taken { ordered kind result ≡ Wake }
    {
        Self::PATTERNS.wake.filled_from(last)
    }

    // The byte to put asleep with, after this value was last read from ENABLE.
    fn sleep_byte(last: u8) -> u8
        ensures value { result ≡ sleep_byte kind last }
        ensures taken { ordered kind result ≡ Sleep }
    {
        Self::PATTERNS.sleep.filled_from(last)
    }

    ghost window_is: { WINDOW ≡ kind.window };

    ghost application_is: { APPLICATION ≡ kind.app };

    ghost patterns_are: { ArePatternsOf kind PATTERNS };
}

#[derive(Clone, Copy, Debug)]
pub struct Tmf8x0x;

#[derive(Clone, Copy, Debug)]
pub struct Tmf882x;

// Every bit of ENABLE is fixed for the TMF8X0X.
const ALL_BITS: u8 = 0xFF;

const NO_BITS: u8 = 0x00;

const TMF8X0X_PATTERNS: Patterns = Patterns {
    asleep: Pattern {
        fixed: ALL_BITS,
        bits: 0x00,
        free: NO_BITS,
    },
    starting: Pattern {
        fixed: ALL_BITS,
        bits: 0x01,
        free: NO_BITS,
    },
    ready: Pattern {
        fixed: ALL_BITS,
        bits: 0x41,
        free: NO_BITS,
    },
    wake: Pattern {
        fixed: ALL_BITS,
        bits: 0x01,
        free: NO_BITS,
    },
    sleep: Pattern {
        fixed: ALL_BITS,
        bits: 0x00,
        free: NO_BITS,
    },
};

// The bits of ENABLE that are free for the TMF882X, and the others.
const FREE_BITS: u8 = 0x30;

const FIXED_BITS: u8 = 0xCF;

const TMF882X_PATTERNS: Patterns = Patterns {
    asleep: Pattern {
        fixed: FIXED_BITS,
        bits: 0x02,
        free: FREE_BITS,
    },
    starting: Pattern {
        fixed: FIXED_BITS,
        bits: 0x01,
        free: FREE_BITS,
    },
    ready: Pattern {
        fixed: FIXED_BITS,
        bits: 0x41,
        free: FREE_BITS,
    },
    wake: Pattern {
        fixed: FIXED_BITS,
        bits: 0x01,
        free: FREE_BITS,
    },
    sleep: Pattern {
        fixed: FIXED_BITS,
        bits: 0x00,
        free: FREE_BITS,
    },
};

impl Kind for Tmf8x0x {
    const WINDOW: u32 = 16384;

    const APPLICATION: u8 = 0xC0;

    const PATTERNS: Patterns = TMF8X0X_PATTERNS;

    ghost WINDOW = { 16384 };

    ghost APPLICATION = { 0xC0 };

    ghost PATTERNS = { TMF8X0X_PATTERNS };

    ghost kind = { «tmf8x0x» };

    ghost window_is = { refl };

    ghost application_is = { refl };

    ghost patterns_are = { tmf8x0x_patterns };
}

impl Kind for Tmf882x {
    const WINDOW: u32 = 32768;

    const APPLICATION: u8 = 0x03;

    const PATTERNS: Patterns = TMF882X_PATTERNS;

    ghost WINDOW = { 32768 };

    ghost APPLICATION = { 0x03 };

    ghost PATTERNS = { TMF882X_PATTERNS };

    ghost kind = { «tmf882x» };

    ghost window_is = { refl };

    ghost application_is = { refl };

    ghost patterns_are = { tmf882x_patterns };
}
