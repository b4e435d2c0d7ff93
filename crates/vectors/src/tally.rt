// How many cases were run, and how many of them passed.
ghost use Rattle.std.specs.Prelude.{◌≡◌, ◌+◌, ◌-◌, ◌^◌, ◌≤◌, min, ◌&&◌, if◌then◌else◌, ◌==◌, nat_lt};

use std::fmt;

#[derive(Drop)]
pub struct Tally {
    seen: usize,
    passed: usize,
    ghost fair: { passed ≤ seen },
}

impl Tally {
    pub fn new() -> Tally
        ensures seen { result.seen ≡ 0 }
        ensures passed { result.passed ≡ 0 }
    {
        Tally { seen: 0, passed: 0 }
    }

    pub fn seen(&self) -> usize
        ensures { result ≡ self.now.seen }
    {
        self.seen
    }

    // Whether there was a case, and none failed.
    pub fn all_passed(&self) -> bool
        ensures { result ≡ (nat_lt 0 self.now.seen && self.now.passed == self.now.seen) }
    {
        self.seen > 0 && self.passed == self.seen
    }

    // One case more. The counts stop at the largest number.
    pub fn note(&mut self, passed: bool)
        ensures seen { self.new.seen ≡ min (self.old.seen + 1) (2 ^ 64 - 1) }
        ensures passed { self.new.passed ≡ min (self.old.passed + (if passed then 1 else 0)) (2 ^ 64 - 1) }
    {
        self.seen = self.seen.saturating_add(1);
        if passed {
            self.passed = self.passed.saturating_add(1);
        }
    }

    // The cases of another tally too.
    pub fn add(&mut self, other: &Tally)
        ensures seen { self.new.seen ≡ min (self.old.seen + other.now.seen) (2 ^ 64 - 1) }
        ensures passed { self.new.passed ≡ min (self.old.passed + other.now.passed) (2 ^ 64 - 1) }
    {
        self.seen = self.seen.saturating_add(other.seen);
        self.passed = self.passed.saturating_add(other.passed);
    }
}

impl fmt::Display for Tally {
    fn fmt<W: fmt::Write>(&self, f: &mut fmt::Formatter<W>) -> fmt::Result {
        let passed = self.passed;
        let seen = self.seen;
        write!(f, "{passed} of {seen}")
    }
}
