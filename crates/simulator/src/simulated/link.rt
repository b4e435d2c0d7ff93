// The simulated sensor as a link.
ghost use Rattle.std.specs.Prelude.{◌≡◌};
ghost use Rattle.simulator.specs.States.{SimIs, advanced};
ghost use Rattle.simulator.specs.Scripts.{fate_at};
ghost use Rattle.simulator.specs.Simulators.{sim_in};
ghost use Rattle.simulator.specs.Simulated.{simulated};

use super::super::fate::{Fate, Place, Way};
use super::Simulated;
use super::showing::flip_last;
use sensor::{Kind, Link, Missed, can_read, can_write, take_next};

impl<K: Kind> Link for Simulated<'_, K> {
    type Model = K;

    ghost State = { SimIs };

    ghost view = { λ s. sim_in s };

    ghost machine = { simulated K.Kind.kind };

    fn of_its_kind()
        ensures { (simulated K.Kind.kind).kind ≡ K.Kind.kind }
    {}

    fn write(&mut self, register: u8, bytes: &[u8]) -> Result<(), Missed> {
        if !can_write(bytes.len()) {
            return Err(Missed);
        }
        let fate = self.take_fate();
        match fate.way(Place::of(register, self.chip.counts())) {
            Way::Whole => {
                self.arrive(fate, register, bytes);
                Ok(())
            }
            Way::Lost => Err(Missed),
            Way::Unheard => {
                self.arrive(fate, register, bytes);
                Err(Missed)
            }
            Way::Flipped => {
                self.arrive_flipped(fate, register, bytes);
                Ok(())
            }
        }
    }

    fn read(&mut self, register: u8, buf: &mut [u8]) -> Result<(), Missed> {
        let count = buf.len();
        if !can_read(count) {
            return Err(Missed);
        }
        match self.take_fate().way(Place::of(register, false)) {
            Way::Whole => {
                self.show(register, buf);
                self.look(register, count);
                Ok(())
            }
            Way::Lost => Err(Missed),
            Way::Unheard => {
                self.look(register, count);
                Err(Missed)
            }
            Way::Flipped => {
                self.show(register, buf);
                flip_last(buf);
                self.look(register, count);
                Ok(())
            }
        }
    }
}

impl<K> Simulated<'_, K> {
    // Takes a byte of the script, or a 0 after its end.
    fn take_fate(&mut self) -> Fate
        ensures fate { result ≡ fate_at (sim_in self.old) }
        ensures after { sim_in self.new ≡ advanced (sim_in self.old) }
    {
        Fate::from(take_next(self.script, &mut self.at).unwrap_or(0))
    }
}
