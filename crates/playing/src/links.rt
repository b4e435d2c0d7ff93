// Links whose sensor can be looked into.
use adversary::Adversary;
use cable::Cable;
use chip::State;
use sensor::Link;
use simulator::Simulated;

pub trait Seen {
    fn seen(&self) -> State;
}

impl<K> Seen for Simulated<'_, K> {
    fn seen(&self) -> State {
        self.state()
    }
}

impl<L: Link + Seen> Seen for Cable<L> {
    fn seen(&self) -> State {
        self.link().seen()
    }
}

impl<K> Seen for Adversary<'_, K> {
    fn seen(&self) -> State {
        self.state()
    }
}
