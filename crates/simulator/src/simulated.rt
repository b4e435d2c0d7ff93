// A simulated sensor, and how it stands.
ghost use Rattle.std.specs.Prelude.{◌≡◌, length, MatchResult};
ghost use Rattle.chip.specs.Chips.{sensor_of};
ghost use Rattle.chip.specs.Lending.{SizeChecked};
ghost use Rattle.simulator.specs.States.{first};
ghost use Rattle.simulator.specs.Simulators.{sim_in};
ghost use Rattle.simulator.specs.Laws.{CleanHeard};

use chip::{Chip, Refused, State};
use sensor::{Kind, Tmf8x0x, Tmf882x};
use std::marker::PhantomData;

mod arriving;
mod link;
mod showing;

// Each exchange takes one byte of the script; after its end, exchanges are clean.
#[derive(Drop)]
pub struct Simulated<'a, K> {
    chip: Chip<'a>,
    // What it shows while it is busy, and how many more times. No Option: both stay when the work ends, as they are defined.
    busy: u8,
    left: u8,
    script: &'a [u8],
    // How many bytes of the script are used up.
    at: usize,
    kind: PhantomData<K>,
}

pub type SimulatedTmf8x0x<'a> = Simulated<'a, Tmf8x0x>;

pub type SimulatedTmf882x<'a> = Simulated<'a, Tmf882x>;

impl<'a, K: Kind> Simulated<'a, K> {
    // A sensor just switched on. Lent RAM of another size than the window's is refused, and comes back as it was.
    pub fn new(ram: &'a mut [u8], script: &'a [u8]) -> Result<Simulated<'a, K>, Refused<'a>>
        ensures size { SizeChecked (length ram.old) K.Kind.kind.window result }
        ensures state { MatchResult result (λ s. sim_in s ≡ first ram.old script.now) (λ e. e.ram.now ≡ ram.old) }
        ensures lent { MatchResult result (λ s. s.chip.ram.ghost_name ≡ ram.entry.ghost_name) (λ e. e.ram.ghost_name ≡ ram.entry.ghost_name) }
        ensures clean { CleanHeard K.Kind.kind }
    {
        Ok(Simulated {
            chip: Chip::new(ram, K::window_size())?,
            busy: 0,
            left: 0,
            script,
            at: 0,
            kind: PhantomData,
        })
    }
}

impl<K> Simulated<'_, K> {
    // The lent RAM.
    pub fn ram(&self) -> &[u8]
        ensures { result.now ≡ (sim_in self.now).sensor.ram }
    {
        self.chip.ram()
    }

    // The sensor's state, apart from the RAM.
    pub fn state(&self) -> State
        ensures { sensor_of (sim_in self.now).sensor.ram result ≡ (sim_in self.now).sensor }
    {
        self.chip.state()
    }

    // How many bytes of the script are used up.
    pub fn used(&self) -> usize
        ensures { result ≡ (sim_in self.now).at }
    {
        self.at
    }
}
