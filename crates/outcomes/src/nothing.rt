// A link that reaches nothing.
ghost use Rattle.std.specs.Prelude.{◌≡◌};
ghost use Rattle.sensor.specs.Exchanges.{Exchange, missed};
ghost use Rattle.outcomes.specs.Unplugged.{unplugged};

use sensor::{Kind, Link, Missed};

// Nothing is ever heard.
const HEARD: Result<(), Missed> = Err(Missed);

// A cable with no sensor of its kind on it: every exchange is missed.
#[derive(Drop)]
pub struct Unplugged<K> {
    kind: K,
}

impl<K: Kind> Unplugged<K> {
    pub fn new(kind: K) -> Unplugged<K>
        ensures made { result.kind ≡ kind }
        ensures misses { (e : Exchange) → ((unplugged K.Kind.kind).step tt e).answer ≡ missed }
    {
        Unplugged { kind }
    }
}

impl<K: Kind> Link for Unplugged<K> {
    type Model = K;

    ghost State = { Unit {0} };

    ghost view = { λ _. tt };

    ghost machine = { unplugged K.Kind.kind };

    fn of_its_kind() {}

    fn write(&mut self, register: u8, bytes: &[u8]) -> Result<(), Missed> {
        HEARD
    }

    fn read(&mut self, register: u8, buf: &mut [u8]) -> Result<(), Missed> {
        HEARD
    }
}
