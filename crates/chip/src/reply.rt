// What a status read shows.
ghost use Rattle.std.specs.Prelude.{◌≡◌};
ghost use Rattle.bootloader.specs.Replies.{status_reply};

// The reply that shows a status.
pub fn status_reply(status: u8) -> [u8; 3]
    ensures { result ≡ status_reply status }
{
    [status, 0, 255 - status]
}
