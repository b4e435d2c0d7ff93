// An exchange that is not answered.
use std::fmt;

// Whether it reached the sensor is not known.
#[derive(Clone, Copy, PartialEq, Eq, Debug)]
pub struct Missed;

impl fmt::Display for Missed {
    ghost use Rattle.std.specs.Prelude.{Some, codes};

    ghost output = { λ _. Some (codes "the exchange was missed: nothing is known of it, so ask again") };

    fn fmt<W: fmt::Write>(&self, f: &mut fmt::Formatter<W>) -> fmt::Result {
        f.pad("the exchange was missed: nothing is known of it, so ask again")
    }
}

impl std::error::Error for Missed {}
