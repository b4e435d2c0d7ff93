// The adversary, and how it stands.
ghost use Rattle.std.specs.Prelude.{◌≡◌, length, MatchResult};
ghost use Rattle.chip.specs.Chips.{sensor_of};
ghost use Rattle.chip.specs.Lending.{SizeChecked};
ghost use Rattle.adversary.specs.Scripted.{first};
ghost use Rattle.adversary.specs.Adversaries.{scripted_in};
ghost use Rattle.adversary.specs.Sound.{Sound};
ghost use Rattle.adversary.specs.Complete.{Complete};

use super::choice::Choice;
use chip::{Chip, Refused, State};
use sensor::Kind;

mod link;

// Each exchange takes one choice of the script; after its end, exchanges are clean.
#[derive(Drop)]
pub struct Adversary<'a, K> {
    kind: K,
    chip: Chip<'a>,
    choices: &'a [Choice],
    // How many choices are used up.
    at: usize,
}

impl<'a, K: Kind + Drop> Adversary<'a, K> {
    // A sensor just switched on. Lent RAM of another size than the window's is refused, and comes back as it was.
    pub fn new(
        kind: K,
        ram: &'a mut [u8],
        choices: &'a [Choice],
    ) -> Result<Adversary<'a, K>, Refused<'a>>
        ensures size { SizeChecked (length ram.old) K.Kind.kind.window result }
        ensures state { MatchResult result (λ a. scripted_in a ≡ first ram.old choices.now) (λ e. e.ram.now ≡ ram.old) }
        ensures lent { MatchResult result (λ a. a.chip.ram.ghost_name ≡ ram.entry.ghost_name) (λ e. e.ram.ghost_name ≡ ram.entry.ghost_name) }
        ensures sound { Sound K.Kind.kind }
        ensures complete { Complete K.Kind.kind }
    {
        Ok(Adversary {
            kind,
            chip: Chip::new(ram, K::window_size())?,
            choices,
            at: 0,
        })
    }
}

// The simulated sensor has these three as well: a trait for three lines over a field would be no plainer.
impl<K> Adversary<'_, K> {
    // The lent RAM.
    pub fn ram(&self) -> &[u8]
        ensures { result.now ≡ (scripted_in self.now).sensor.ram }
    {
        self.chip.ram()
    }

    // The sensor's state, apart from the RAM.
    pub fn state(&self) -> State
        ensures { sensor_of (scripted_in self.now).sensor.ram result ≡ (scripted_in self.now).sensor }
    {
        self.chip.state()
    }

    // How many choices are used up.
    pub fn used(&self) -> usize
        ensures { result ≡ (scripted_in self.now).at }
    {
        self.at
    }
}
