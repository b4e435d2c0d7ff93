// What a read shows, and how it leaves the sensor.
ghost use Rattle.std.specs.Prelude.{◌≡◌, ◌≤◌, true, length, replicate, if◌then◌else◌};
ghost use Rattle.bootloader.specs.Replies.{status_reply};
ghost use Rattle.sensor.specs.Sensors.{in_loader};
ghost use Rattle.sensor.specs.declared.registers.Asked.TheVariants.{Status as status_asked};
ghost use Rattle.sensor.specs.Meaning.{asked};
ghost use Rattle.simulator.specs.Simulators.{sim_in};
ghost use Rattle.simulator.specs.Frames.{flip_last};
ghost use Rattle.simulator.specs.Reads.{is_busy, status_seen, shown, looked};

use super::Simulated;
use bootloader::LEAST_BUSY;
use chip::status_reply;
use sensor::{Asked, Kind, Stage, app_shown};

impl<K: Kind> Simulated<'_, K> {
    // What a read shows.
    pub(crate) fn show(&self, register: u8, buf: &mut [u8])
        ensures { buf.new ≡ shown K.Kind.kind (asked register (length buf.old)) (length buf.old) (sim_in self.now) }
    {
        let stage = self.chip.stage();
        match Asked::of(register, buf.len()) {
            Asked::Status => buf.copy_from_slice(&self.reply()),
            Asked::Stage => buf.copy_from_slice(&[K::enable_value(stage.enable())]),
            Asked::App => buf.copy_from_slice(&[app_shown::<K>(stage, 0)]),
            Asked::Other => buf.fill(0),
        }
    }
}

impl<K> Simulated<'_, K> {
    // How a read leaves the sensor.
    pub(crate) fn look(&mut self, register: u8, count: usize)
        ensures { sim_in self.new ≡ looked (asked register count) (sim_in self.old) }
    {
        match Asked::of(register, count) {
            Asked::Status => self.look_at_status(),
            Asked::Stage => self.chip.start(),
            Asked::App | Asked::Other => {}
        }
    }

    // What a status read shows.
    fn reply(&self) -> [u8; 3]
        ensures { result ≡ (if in_loader (sim_in self.now).sensor.stage then status_reply (status_seen (sim_in self.now)) else replicate 3 0) }
    {
        if self.chip.stage() != Stage::Loader {
            [0; 3]
        } else if self.is_busy() {
            status_reply(self.busy)
        } else {
            status_reply(self.chip.status())
        }
    }

    // A status read uses up a busy reply, or ends the work.
    fn look_at_status(&mut self)
        ensures { sim_in self.new ≡ looked status_asked (sim_in self.old) }
    {
        if self.chip.stage() != Stage::Loader {
            return;
        }
        if self.is_busy() {
            self.left -= 1;
        } else {
            self.chip.rest();
        }
    }

    // Whether it is at work, and has a busy reply left.
    fn is_busy(&self) -> bool
        ensures value { result ≡ is_busy (sim_in self.now) }
        ensures left { result ≡ true → 1 ≤ (sim_in self.now).left }
    {
        self.chip.is_working() && self.busy >= LEAST_BUSY && self.left > 0
    }
}

// Flips bit 0 of the last byte.
pub(crate) fn flip_last(bytes: &mut [u8])
    ensures { bytes.new ≡ flip_last bytes.old }
{
    if let Some(last) = bytes.last_mut() {
        *last ^= 1;
    }
}
