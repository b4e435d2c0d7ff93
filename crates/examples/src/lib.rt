// The worked examples of specs/Worked.antt, proved as one list.
#![tactic(auto)]

ghost use Rattle.std.specs.Prelude.{◌≡◌, length};
ghost use Rattle.std.specs.List.{AllByRecursion};
ghost use Rattle.examples.specs.Worked.{Holds, worked};

// Every example holds; the answer is how many there are.
pub fn examples_stand() -> usize
    ensures all { AllByRecursion Holds worked }
    ensures count { result ≡ length worked }
{
    11
}
