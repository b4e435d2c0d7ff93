// What a script picks.
ghost use Rattle.std.specs.Prelude.{◌≡◌};
ghost use Rattle.adversary.specs.Choices.{clean};

// What becomes of the bytes of a frame, or of a status reply, on the way.
#[derive(Clone, Copy, PartialEq, Eq, Debug)]
pub enum Arrival {
    Whole,
    // The byte at a place is another; past the end, none is.
    Changed { at: u8, to: u8 },
    // Only so many bytes of a frame arrive; a reply arrives whole.
    Cut { at: u8 },
    // Nothing of a frame arrives; a reply arrives whole.
    Lost,
}

// One step of the script: each pick stands alone, so that a script can make any of them. What an exchange does not ask for is
// not looked at.
#[derive(Clone, Copy, PartialEq, Eq, Debug)]
pub struct Choice {
    // A starting sensor starts before the exchange has its effect.
    pub starts_before: bool,
    // A starting sensor starts after it.
    pub starts_after: bool,
    // The answer gets back: a write is acknowledged if its bytes arrive to their end, a read is filled.
    pub heard: bool,
    // Other writes than a frame arrive whole, or not at all where this is cut or lost.
    pub arrival: Arrival,
    // A frame is carried out if it is well formed and the sensor can, and refused otherwise.
    pub obeys: bool,
    // The status of a refused frame; 15 if this is not from 1 to 15.
    pub status: u8,
    // The sensor is still at work after the frame.
    pub working: bool,
    // The work ends at a read that is missed, and at a status read, which then shows the status.
    pub rests: bool,
    // From 16 on: what a status read shows of a sensor that works on. The work ends if this is lower.
    pub busy: u8,
    // What a read shows where anything may be shown, and at ENABLE if it says what the stage has to say.
    pub shown: [u8; 4],
}

impl Choice {
    // The step in which nothing goes wrong.
    pub fn clean() -> Choice
        ensures { result ≡ clean }
    {
        Choice {
            starts_before: true,
            starts_after: false,
            heard: true,
            arrival: Arrival::Whole,
            obeys: true,
            status: 15,
            working: false,
            rests: true,
            busy: 0,
            shown: [0; 4],
        }
    }
}
