// What a sensor is at.
ghost use Rattle.std.specs.Prelude.{◌≡◌};
ghost use Rattle.sensor.specs.Meaning.{enable_at};

use super::enable::Enable;

#[derive(Clone, Copy, PartialEq, Eq, Debug)]
pub enum Stage {
    Asleep,
    Starting,
    // Taking frames.
    Loader,
    // Running the patch.
    Application,
}

impl Stage {
    // What ENABLE says at this stage. No `From`: a stage does not become what one register says of it.
    pub fn enable(self) -> Enable
        ensures { result ≡ enable_at self }
    {
        match self {
            Stage::Asleep => Enable::Asleep,
            Stage::Starting => Enable::Starting,
            Stage::Loader | Stage::Application => Enable::Ready,
        }
    }
}
