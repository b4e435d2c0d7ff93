// The bootloader's status replies.
ghost use Rattle.std.specs.Prelude.{◌≡◌};
ghost use Rattle.bootloader.specs.Laws.{NoticesSpoiling};
ghost use Rattle.bootloader.specs.Replies.{status_of, reply_of};

// From here on a status says that the sensor is at work.
pub const LEAST_BUSY: u8 = 16;

// No Option or Result: a reply says one of four things, and which of them is a fault depends on what was sent.
#[derive(Clone, Copy, PartialEq, Eq, Debug)]
pub enum Reply {
    // The last command is carried out.
    Ready,
    // The last command was refused, for this reason.
    Refused(u8),
    // The last command is still at work.
    Busy(u8),
    // No status reply.
    Spoiled,
}

// What a status reply says: a status, 0, and 255 less the status.
#[tactic(auto, using(crate::proofs::Spoiling::change_spoils), unfolding(crate::specs::Replies::reply_of))]
pub fn read_reply(bytes: &[u8]) -> Reply
    ensures value { result ≡ reply_of bytes.now }
    ensures change { NoticesSpoiling bytes.now }
{
    match bytes {
        [status, 0, check] if *check == 255 - *status => of_status(*status),
        _ => Reply::Spoiled,
    }
}

// What a status means.
fn of_status(status: u8) -> Reply
    ensures { result ≡ status_of status }
{
    match status {
        0 => Reply::Ready,
        1..=15 => Reply::Refused(status),
        LEAST_BUSY.. => Reply::Busy(status),
    }
}
