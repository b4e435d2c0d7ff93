// What bytes do that arrive at a register.
ghost use Rattle.std.specs.Prelude.{◌≡◌, ◌≤◌, length};
ghost use Rattle.bootloader.specs.Frames.{decode_of};
ghost use Rattle.chip.specs.Chips.{sensor_in};
ghost use Rattle.simulator.specs.Simulators.{sim_in};
ghost use Rattle.simulator.specs.Frames.{judged, counted, flip_last, arrived};

use super::super::fate::Fate;
use super::Simulated;
use super::showing::flip_last;
use chip::{Chip, Refusal};
use sensor::{BOOTLOADER, Kind, MOST_WRITTEN};

// The statuses of a refused frame: it cannot be carried out, it is no frame, the script says so.
const UNABLE: u8 = 13;

const ILL_FORMED: u8 = 14;

const BY_SCRIPT: u8 = 15;

// A byte of the script asks for as many busy replies as it is modulo this.
const BUSY_REPLIES: u8 = 16;

impl<K: Kind> Simulated<'_, K> {
    // Bytes arrive at a register.
    pub(crate) fn arrive(&mut self, fate: Fate, register: u8, bytes: &[u8])
        ensures { sim_in self.new ≡ arrived K.Kind.kind fate register bytes.now (sim_in self.old) }
    {
        if register != BOOTLOADER {
            self.chip.tell::<K>(register, bytes);
        } else if self.chip.counts() {
            self.count(fate, bytes);
        }
    }

    // The same, with bit 0 of the last byte flipped.
    pub(crate) fn arrive_flipped(&mut self, fate: Fate, register: u8, bytes: &[u8])
        requires { length bytes.now ≤ 131 }
        ensures { sim_in self.new ≡ arrived K.Kind.kind fate register (flip_last bytes.now) (sim_in self.old) }
    {
        // Fixed memory: an exchange takes no heap.
        let mut flipped = [0; MOST_WRITTEN];
        let flipped = &mut flipped[..bytes.len()];
        flipped.copy_from_slice(bytes);
        flip_last(flipped);
        self.arrive(fate, register, flipped);
    }

    // A frame that counts arrives.
    fn count(&mut self, fate: Fate, frame: &[u8])
        ensures { sim_in self.new ≡ counted K.Kind.kind fate frame.now (sim_in self.old) }
    {
        match fate {
            Fate::Refused => self.chip.answer(BY_SCRIPT, false),
            Fate::Slow(byte) => {
                judge::<K>(&mut self.chip, frame, true);
                self.busy = byte;
                self.left = byte % BUSY_REPLIES;
            }
            _ => judge::<K>(&mut self.chip, frame, false),
        }
    }
}

// The chip does what a frame says, or refuses it.
fn judge<K: Kind>(chip: &mut Chip<'_>, frame: &[u8], working: bool)
    ensures { sensor_in chip.new ≡ judged K.Kind.kind working (decode_of frame.now) (sensor_in chip.old) }
{
    match chip.take_frame::<K>(frame, working) {
        Ok(()) => {}
        Err(Refusal::Unable) => chip.answer(UNABLE, working),
        Err(Refusal::IllFormed(_)) => chip.answer(ILL_FORMED, working),
    }
}
