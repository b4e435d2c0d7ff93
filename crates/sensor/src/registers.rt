// What is asked of a sensor by its registers.
ghost use Rattle.std.specs.Prelude.{◌≡◌};
ghost use Rattle.sensor.specs.Meaning.{app_at, asked};

use super::kind::Kind;
use super::stage::Stage;

// Takes frames, and shows the status reply.
pub const BOOTLOADER: u8 = 0x08;

// Takes orders, and shows the stage.
pub const ENABLE: u8 = 0xE0;

// Shows what is running.
pub const APPID: u8 = 0x00;

// What APPID shows in the loader.
const LOADER_ID: u8 = 0x80;

// The bytes of a status reply.
const STATUS_BYTES: usize = 3;

// What a read asks for.
#[derive(Clone, Copy, PartialEq, Eq, Debug)]
pub enum Asked {
    // The status reply.
    Status,
    // The stage, at ENABLE.
    Stage,
    // What is running, at APPID.
    App,
    // Nothing that is defined.
    Other,
}

impl Asked {
    // What a read of so many bytes asks for.
    pub fn of(register: u8, count: usize) -> Asked
        ensures { result ≡ asked register count }
    {
        match (register, count) {
            (BOOTLOADER, STATUS_BYTES) => Asked::Status,
            (ENABLE, 1) => Asked::Stage,
            (APPID, 1) => Asked::App,
            _ => Asked::Other,
        }
    }
}

// What APPID shows at a stage; the given byte where it may show anything.
pub fn app_shown<K: Kind>(stage: Stage, anything: u8) -> u8
    ensures { result ≡ app_at K.Kind.kind stage anything }
{
    match stage {
        Stage::Asleep | Stage::Starting => anything,
        Stage::Loader => LOADER_ID,
        Stage::Application => K::application_id(),
    }
}
