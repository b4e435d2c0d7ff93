// The link to a sensor.
ghost use Rattle.std.specs.Prelude.{◌≡◌, length, OnErr};
ghost use Rattle.sensor.specs.Exchanges.{writes, reads, acknowledged, filled, heard};
ghost use Rattle.sensor.specs.Machines.{Machine};

use super::kind::Kind;
use super::missed::Missed;

// A link as it stands and what is asked of it fix its answer and how it stands next: that is its machine. It carries the
// proof that each exchange is one that the sensor's meaning allows.
pub trait Link {
    // The kind of sensor behind it.
    type Model: Kind;

    ghost State: { Type 0 };

    ghost view: { Self → State };

    ghost machine: { Machine State };

    // The machine is of the link's kind. Does nothing.
    fn of_its_kind()
        ensures { machine.kind ≡ Self.Model.Kind.kind };

    // Writes 1 to 131 bytes to a register, and hears them acknowledged. Another number of bytes is missed.
    fn write(&mut self, register: u8, bytes: &[u8]) -> Result<(), Missed>
        ensures next { view self.new ≡ (machine.step (view self.old) (writes register bytes.now)).next }
        ensures answer { (machine.step (view self.old) (writes register bytes.now)).answer ≡ heard result acknowledged };

    // Reads 1 to 4 bytes from a register, as many as the buffer has, and fills it. Where that is missed, it is left as it was.
    fn read(&mut self, register: u8, buf: &mut [u8]) -> Result<(), Missed>
        ensures next { view self.new ≡ (machine.step (view self.old) (reads register (length buf.old))).next }
        ensures answer { (machine.step (view self.old) (reads register (length buf.old))).answer ≡ heard result (filled buf.new) }
        ensures kept { OnErr result (buf.new ≡ buf.old) };
}
