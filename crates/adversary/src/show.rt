// What a choice does with a read.
ghost use Rattle.std.specs.Prelude.{◌≡◌, true, length, take, if◌then◌else◌, OnErr};
ghost use Rattle.checksum.specs.Ranges.{within};
ghost use Rattle.bootloader.specs.Replies.{status_reply};
ghost use Rattle.sensor.specs.Exchanges.{reads, filled, heard};
ghost use Rattle.sensor.specs.Sensors.{rested, in_loader};
ghost use Rattle.sensor.specs.Meaning.{asked};
ghost use Rattle.chip.specs.Chips.{sensor_in};
ghost use Rattle.adversary.specs.Choices.{four};
ghost use Rattle.adversary.specs.Showing.{shows_busy, status_number, noisy, enable_shown, shown_bytes, after_shown};
ghost use Rattle.adversary.specs.Scripted.{effect};

use super::choice::{Arrival, Choice};
use super::send::change;
use bootloader::LEAST_BUSY;
use chip::{Chip, status_reply};
use sensor::{Asked, Enable, Kind, Missed, Stage, app_shown};

impl Choice {
    // A read of 1 to 4 bytes, apart from a start.
    pub(crate) fn read<K: Kind>(
        self,
        chip: &mut Chip<'_>,
        register: u8,
        buf: &mut [u8],
    ) -> Result<(), Missed>
        requires { within 1 4 (length buf.old) ≡ true }
        ensures next { sensor_in chip.new ≡ (effect K.Kind.kind self (sensor_in chip.old) (reads register (length buf.old))).next }
        ensures answer { (effect K.Kind.kind self (sensor_in chip.old) (reads register (length buf.old))).answer ≡ heard result (filled buf.new) }
        ensures kept { OnErr result (buf.new ≡ buf.old) }
    {
        if self.heard {
            self.show::<K>(chip, register, buf);
            return Ok(());
        }
        if self.rests {
            chip.rest();
        }
        Err(Missed)
    }

    // Fills a buffer of 1 to 4 bytes.
    fn show<K: Kind>(self, chip: &mut Chip<'_>, register: u8, buf: &mut [u8])
        requires { within 1 4 (length buf.old) ≡ true }
        ensures shown { buf.new ≡ shown_bytes K.Kind.kind self (sensor_in chip.old) (asked register (length buf.old)) (length buf.old) }
        ensures after { sensor_in chip.new ≡ after_shown self (sensor_in chip.old) (asked register (length buf.old)) }
    {
        match Asked::of(register, buf.len()) {
            Asked::Status => buf.copy_from_slice(&self.reply(chip)),
            Asked::Stage => {
                buf.copy_from_slice(&[enable_shown::<K>(chip.stage().enable(), self.shown[0])]);
            }
            Asked::App => buf.copy_from_slice(&[app_shown::<K>(chip.stage(), self.shown[0])]),
            Asked::Other => buf.copy_from_slice(&self.shown[..buf.len()]),
        }
    }

    // Three bytes at register 0x08.
    fn reply(self, chip: &mut Chip<'_>) -> [u8; 3]
        ensures shown { result ≡ (if in_loader (sensor_in chip.old).stage then noisy self.arrival (status_reply (status_number self (sensor_in chip.old))) else take 3 (four self.shown)) }
        ensures after { sensor_in chip.new ≡ (if in_loader (sensor_in chip.old).stage then (if shows_busy self (sensor_in chip.old) then sensor_in chip.old else rested (sensor_in chip.old)) else sensor_in chip.old) }
    {
        if chip.stage() == Stage::Loader {
            self.arrival.noisy(status_reply(self.end_work(chip)))
        } else {
            [self.shown[0], self.shown[1], self.shown[2]]
        }
    }

    // The number that the status reply shows; the work ends unless that is a busy one.
    fn end_work(self, chip: &mut Chip<'_>) -> u8
        ensures number { result ≡ status_number self (sensor_in chip.old) }
        ensures after { sensor_in chip.new ≡ (if shows_busy self (sensor_in chip.old) then sensor_in chip.old else rested (sensor_in chip.old)) }
    {
        if chip.is_working() && self.busy >= LEAST_BUSY && !self.rests {
            return self.busy;
        }
        chip.rest();
        chip.status()
    }
}

impl Arrival {
    // A status reply as it arrives.
    fn noisy(self, mut reply: [u8; 3]) -> [u8; 3]
        ensures { result ≡ noisy self reply }
    {
        if let Arrival::Changed { at, to } = self {
            change(&mut reply, at as usize, to);
        }
        reply
    }
}

// A value that says so: the given one, if it does.
fn enable_shown<K: Kind>(says: Enable, value: u8) -> u8
    ensures { result ≡ enable_shown K.Kind.kind says value }
{
    if K::classify(value) == says {
        value
    } else {
        K::enable_value(says)
    }
}
