// What a choice does with a write.
ghost use Rattle.std.specs.Prelude.{◌≡◌, ◌≤◌, length, take};
ghost use Rattle.bootloader.specs.Frames.{decode_of};
ghost use Rattle.sensor.specs.Exchanges.{writes, acknowledged, heard};
ghost use Rattle.chip.specs.Chips.{sensor_in};
ghost use Rattle.adversary.specs.Sending.{changed, refused, obeyed, judged, frame_sent, reason_of, arrives, written};
ghost use Rattle.adversary.specs.Scripted.{effect};

use super::choice::{Arrival, Choice};
use chip::Chip;
use sensor::{BOOTLOADER, Kind, MOST_WRITTEN, Missed};

// The status of a frame that is refused for no reason of its own.
const NO_REASON: u8 = 15;

impl Choice {
    // A write, apart from a start.
    pub(crate) fn write<K: Kind>(
        self,
        chip: &mut Chip<'_>,
        register: u8,
        bytes: &[u8],
    ) -> Result<(), Missed>
        requires { length bytes.now ≤ 131 }
        ensures next { sensor_in chip.new ≡ (effect K.Kind.kind self (sensor_in chip.old) (writes register bytes.now)).next }
        ensures answer { (effect K.Kind.kind self (sensor_in chip.old) (writes register bytes.now)).answer ≡ heard result acknowledged }
    {
        self.send::<K>(chip, register, bytes);
        if self.arrival.arrives() && self.heard {
            Ok(())
        } else {
            Err(Missed)
        }
    }

    // The bytes on their way.
    fn send<K: Kind>(self, chip: &mut Chip<'_>, register: u8, bytes: &[u8])
        requires { length bytes.now ≤ 131 }
        ensures { sensor_in chip.new ≡ written K.Kind.kind self (sensor_in chip.old) register bytes.now }
    {
        if register == BOOTLOADER {
            self.send_frame::<K>(chip, bytes);
        } else if self.arrival.arrives() {
            chip.tell::<K>(register, bytes);
        }
    }

    // A frame on its way; what of it arrives is judged.
    fn send_frame<K: Kind>(self, chip: &mut Chip<'_>, frame: &[u8])
        requires { length frame.now ≤ 131 }
        ensures { sensor_in chip.new ≡ frame_sent K.Kind.kind.window self self.arrival (sensor_in chip.old) frame.now }
    {
        match self.arrival {
            Arrival::Whole => self.judge::<K>(chip, frame),
            Arrival::Changed { at, to } => {
                // Fixed memory: an exchange takes no heap.
                let mut noisy = [0; MOST_WRITTEN];
                let got = &mut noisy[..frame.len()];
                got.copy_from_slice(frame);
                change(got, at as usize, to);
                self.judge::<K>(chip, got);
            }
            Arrival::Cut { at } => self.judge::<K>(chip, cut(frame, at as usize)),
            Arrival::Lost => {}
        }
    }

    // What the sensor does with bytes that arrived at register 0x08.
    fn judge<K: Kind>(self, chip: &mut Chip<'_>, got: &[u8])
        ensures { sensor_in chip.new ≡ judged K.Kind.kind.window self (sensor_in chip.old) got.now }
    {
        if chip.counts() {
            if self.obeys {
                self.obey::<K>(chip, got);
            } else {
                self.refuse(chip);
            }
        }
    }

    // Does what a frame says if the sensor can, and refuses it otherwise.
    fn obey<K: Kind>(self, chip: &mut Chip<'_>, got: &[u8])
        ensures { sensor_in chip.new ≡ obeyed K.Kind.kind.window self (sensor_in chip.old) (decode_of got.now) }
    {
        if chip.take_frame::<K>(got, self.working).is_err() {
            self.refuse(chip);
        }
    }

    fn refuse(self, chip: &mut Chip<'_>)
        ensures { sensor_in chip.new ≡ refused self (sensor_in chip.old) }
    {
        chip.answer(reason(self.status), self.working);
    }
}

impl Arrival {
    // Whether bytes arrive to their end.
    fn arrives(self) -> bool
        ensures { result ≡ arrives self }
    {
        matches!(self, Arrival::Whole | Arrival::Changed { .. })
    }
}

// Makes the byte at a place another, if there is one.
pub(crate) fn change(bytes: &mut [u8], at: usize, to: u8)
    ensures { bytes.new ≡ changed bytes.old at to }
{
    if at < bytes.len() {
        bytes[at] = to;
    }
}

// The bytes before a place.
fn cut(bytes: &[u8], at: usize) -> &[u8]
    ensures { result.now ≡ take at bytes.now }
{
    bytes.get(..at).unwrap_or(bytes)
}

// A status that refuses.
fn reason(status: u8) -> u8
    ensures { result ≡ reason_of status }
{
    match status {
        1..=15 => status,
        _ => NO_REASON,
    }
}
