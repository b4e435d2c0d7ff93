// What the bootloader can be told.
ghost use Rattle.std.specs.Prelude.{◌≡◌};
ghost use Rattle.bootloader.specs.Commands.{meaning, ram_remap_reset, download_init, addr_ram};

#[derive(Clone, Copy, PartialEq, Eq, Debug)]
pub enum Command<'a> {
    // Remap to the RAM and reset: the sensor then starts from its RAM.
    RamRemapReset,
    // Take the remapping back and reset.
    RomRemapReset,
    // Open the RAM for writing.
    DownloadInit,
    // Write these bytes at the pointer, and move it past them.
    WriteRam(&'a [u8]),
    // Set the pointer.
    AddrRam(u16),
}

// Commands that borrow nothing, for callers that hold nothing to borrow from.
impl<'a> Command<'a> {
    pub fn ram_remap_reset() -> Command<'a>
        ensures { meaning result ≡ ram_remap_reset }
    {
        Command::RamRemapReset
    }

    pub fn download_init() -> Command<'a>
        ensures { meaning result ≡ download_init }
    {
        Command::DownloadInit
    }

    pub fn addr_ram(address: u16) -> Command<'a>
        ensures { meaning result ≡ addr_ram address }
    {
        Command::AddrRam(address)
    }
}
