// How many bytes a link takes in one exchange.
ghost use Rattle.std.specs.Prelude.{◌≡◌};
ghost use Rattle.checksum.specs.Ranges.{within};

use bootloader::LONGEST_FRAME;

// The most that it writes and reads.
pub const MOST_WRITTEN: usize = LONGEST_FRAME;

pub const MOST_READ: usize = 4;

// The next two differ in a constant, and one function that takes it would be no plainer.

// Whether a link writes so many bytes in one exchange.
pub fn can_write(count: usize) -> bool
    ensures { result ≡ within 1 131 count }
{
    (1..=MOST_WRITTEN).contains(&count)
}

// Whether a link reads so many bytes in one exchange.
pub fn can_read(count: usize) -> bool
    ensures { result ≡ within 1 4 count }
{
    (1..=MOST_READ).contains(&count)
}
