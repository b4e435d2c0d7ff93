// The chip.
ghost use Rattle.std.specs.Prelude.{◌≡◌, ◌==◌, length, MatchResult, OnOk, OnErr};
ghost use Rattle.std.proofs.lemmas.List.Edits.{sets};
ghost use Rattle.bootloader.specs.Commands.{meaning, addr_ram, write_ram};
ghost use Rattle.bootloader.specs.Frames.{decode_of};
ghost use Rattle.sensor.specs.Meaning.{told};
ghost use Rattle.sensor.specs.Sensors.{switched_on, with_pointer, with_remapped, stored, reset, after_order, started_up, rested, answered, counts};
ghost use Rattle.chip.specs.Chips.{sensor_in, sensor_of};
ghost use Rattle.chip.specs.Lending.{SizeChecked};
ghost use Rattle.chip.specs.Commanded.{could, commanded, verdict, done};

use super::fault::{Refused, check_ram};
use super::refusal::{Refusal, Unable};
use super::state::State;
use bootloader::{Command, decode};
use sensor::{ENABLE, Kind, Order, Stage};

// The state just after it is switched on.
const SWITCHED_ON: State = State {
    pointer: 0,
    stage: Stage::Asleep,
    status: 0,
    remapped: false,
    opened: false,
    working: false,
};

// A sensor's state over lent RAM. It has no Model: behind one, a caller can't prove what the RAM holds when it comes back.
#[derive(Drop)]
pub struct Chip<'a> {
    ram: &'a mut [u8],
    state: State,
}

impl<'a> Chip<'a> {
    // Just switched on. Lent RAM of another size than the window's is refused, and comes back as it was.
    pub fn new(ram: &'a mut [u8], window: u32) -> Result<Chip<'a>, Refused<'a>>
        ensures size { SizeChecked (length ram.old) window result }
        ensures state { MatchResult result (λ c. sensor_in c ≡ switched_on ram.old) (λ e. e.ram.now ≡ ram.old) }
        ensures lent { MatchResult result (λ c. c.ram.ghost_name ≡ ram.entry.ghost_name) (λ e. e.ram.ghost_name ≡ ram.entry.ghost_name) }
    {
        match check_ram(ram, window) {
            Ok(()) => Ok(Chip::switched_on(ram)),
            Err(fault) => Err(Refused { fault, ram }),
        }
    }

    // Just switched on.
    pub fn switched_on(ram: &'a mut [u8]) -> Chip<'a>
        ensures state { sensor_in result ≡ switched_on ram.old }
        ensures lent { result.ram.ghost_name ≡ ram.entry.ghost_name }
    {
        Chip {
            ram,
            state: SWITCHED_ON,
        }
    }

    // The lent RAM.
    pub fn ram(&self) -> &[u8]
        ensures { result.now ≡ (sensor_in self.now).ram }
    {
        self.ram
    }

    // All but the RAM.
    pub fn state(&self) -> State
        ensures { sensor_of (sensor_in self.now).ram result ≡ sensor_in self.now }
    {
        self.state
    }

    pub fn stage(&self) -> Stage
        ensures { result ≡ (sensor_in self.now).stage }
    {
        self.state.stage
    }

    pub fn status(&self) -> u8
        ensures { result ≡ (sensor_in self.now).status }
    {
        self.state.status
    }

    pub fn is_working(&self) -> bool
        ensures { result ≡ (sensor_in self.now).working }
    {
        self.state.working
    }

    // Whether a frame counts.
    pub fn counts(&self) -> bool
        ensures { result ≡ counts (sensor_in self.now) }
    {
        self.state.stage == Stage::Loader && !self.state.working
    }

    // Starting ends.
    pub fn start(&mut self)
        ensures { sensor_in self.new ≡ started_up (sensor_in self.old) }
    {
        if self.state.stage == Stage::Starting {
            self.state.stage = if self.state.remapped {
                Stage::Application
            } else {
                Stage::Loader
            };
        }
    }

    // The work ends.
    pub fn rest(&mut self)
        ensures { sensor_in self.new ≡ rested (sensor_in self.old) }
    {
        self.state.working = false;
    }

    // A frame is answered with a status, and nothing else is done.
    pub fn answer(&mut self, status: u8, working: bool)
        ensures { sensor_in self.new ≡ answered status working (sensor_in self.old) }
    {
        self.state.status = status;
        self.state.working = working;
    }

    // Does what a byte written to ENABLE asks for.
    pub fn obey(&mut self, order: Order)
        ensures { sensor_in self.new ≡ after_order order (sensor_in self.old) }
    {
        match order {
            Order::Wake => {
                if self.state.stage == Stage::Asleep {
                    self.reset();
                }
            }
            Order::Sleep => {
                self.reset();
                self.state.stage = Stage::Asleep;
            }
            Order::Other => {}
        }
    }

    // Bytes arrive at a register other than 0x08: only one byte at ENABLE asks for anything.
    pub fn tell<K: Kind>(&mut self, register: u8, bytes: &[u8])
        ensures { sensor_in self.new ≡ told K.Kind.kind (register == 0xE0) bytes.now (sensor_in self.old) }
    {
        if let (ENABLE, [byte]) = (register, bytes) {
            self.obey(K::order(*byte));
        }
    }

    // Does what a frame says. Where that is refused, nothing is done.
    pub fn take_frame<K: Kind>(&mut self, frame: &[u8], working: bool) -> Result<(), Refusal>
        ensures verdict { result ≡ verdict K.Kind.kind.window (decode_of frame.now) (sensor_in self.old) }
        ensures after { sensor_in self.new ≡ done K.Kind.kind.window (decode_of frame.now) working (sensor_in self.old) }
    {
        let command = decode(frame)?;
        self.carry_out(K::window_size(), &command, working)?;
        Ok(())
    }

    // Carries a command out in a window of so many bytes. Where it cannot, nothing is done.
    pub fn carry_out(
        &mut self,
        window: u32,
        command: &Command<'_>,
        working: bool,
    ) -> Result<(), Unable>
        ensures able { result ≡ could window (meaning command.now) (sensor_in self.old) }
        ensures after { sensor_in self.new ≡ commanded window (meaning command.now) working (sensor_in self.old) }
    {
        match command {
            Command::RamRemapReset => {
                self.remap(true);
                return Ok(());
            }
            Command::RomRemapReset => {
                self.remap(false);
                return Ok(());
            }
            Command::DownloadInit => self.state.opened = true,
            Command::AddrRam(address) => self.point(window, *address)?,
            Command::WriteRam(bytes) => self.write(window, bytes)?,
        }
        self.answer(0, working);
        Ok(())
    }

    fn remap(&mut self, remapped: bool)
        ensures { sensor_in self.new ≡ reset (with_remapped remapped (sensor_in self.old)) }
    {
        self.state.remapped = remapped;
        self.reset();
    }

    fn reset(&mut self)
        ensures { sensor_in self.new ≡ reset (sensor_in self.old) }
    {
        self.state = State {
            stage: Stage::Starting,
            remapped: self.state.remapped,
            ..SWITCHED_ON
        };
    }

    // The place where the next bytes are written.
    fn point(&mut self, window: u32, address: u16) -> Result<(), Unable>
        ensures able { result ≡ could window (addr_ram address) (sensor_in self.old) }
        ensures ok { OnOk result (sensor_in self.new ≡ with_pointer address (sensor_in self.old)) }
        ensures err { OnErr result (sensor_in self.new ≡ sensor_in self.old) }
    {
        let address = u32::from(address);
        if address >= window {
            return Err(Unable);
        }
        self.state.pointer = address;
        Ok(())
    }

    // The next bytes.
    fn write(&mut self, window: u32, bytes: &[u8]) -> Result<(), Unable>
        ensures able { result ≡ could window (write_ram bytes.now) (sensor_in self.old) }
        ensures ok { OnOk result (sensor_in self.new ≡ stored bytes.now (sensor_in self.old)) }
        ensures err { OnErr result (sensor_in self.new ≡ sensor_in self.old) }
    {
        let from = self.state.pointer as usize;
        let end = from + bytes.len();
        if !self.state.opened || end > window as usize {
            return Err(Unable);
        }
        store(self.ram, from, bytes);
        self.state.pointer = end as u32;
        Ok(())
    }
}

// The bytes into the RAM from a place on. What lies past its end is lost.
#[tactic(auto, using(crate::proofs::Storing::stored, crate::proofs::Storing::stored_out))]
fn store(ram: &mut [u8], from: usize, bytes: &[u8])
    ensures { ram.new ≡ sets ram.old from bytes.now }
{
    if from < ram.len() {
        let count = bytes.len().min(ram.len() - from);
        ram[from..from + count].copy_from_slice(&bytes[..count]);
    }
}
