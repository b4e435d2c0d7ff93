// What every link keeps.
ghost use Rattle.sensor.specs.Sensors.{Sensor};
ghost use Rattle.outcomes.specs.Allowed.{Allows};
ghost use Rattle.outcomes.specs.Bounds.{Bounded, ForgetsNothing};

use sensor::Link;

// Whatever a sensor and a noisy cable can do is allowed to a link's sensor, and nothing else is; and the link forgets no
// frame that it acknowledged. Does nothing: it is what may be relied on.
#[tactic(auto, using(crate::proofs::Allowing::all_allowed, crate::proofs::Bounding::all_bounded, crate::proofs::Bounding::forgets_nothing))]
pub fn vouch<L: Link>(link: &L)
    ensures allows { (s : Sensor) → Allows L.Link.machine.kind s }
    ensures bounded { (s : Sensor) → Bounded L.Link.machine.kind s }
    ensures kept { ForgetsNothing L.Link.machine (L.Link.view link.now) }
{}
