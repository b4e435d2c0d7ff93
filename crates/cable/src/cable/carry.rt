// A cable as a link: what becomes of each exchange.
ghost use Rattle.std.specs.Prelude.{◌≡◌};
ghost use Rattle.cable.specs.Entries.{Cabled, entry_at, past};
ghost use Rattle.cable.specs.Cabled.{cabled};

use super::super::entry::Entry;
use super::Cable;
use sensor::{Link, MOST_READ, Missed, can_read, can_write, take_next};

impl<L: Link> Link for Cable<L> {
    type Model = L::Model;

    ghost State = { Cabled L.Link.State };

    ghost view = { λ c. record { under = L.Link.view c.link; entries = c.entries; at = c.at } };

    ghost machine = { cabled L.Link.machine };

    fn of_its_kind() {
        L::of_its_kind()
    }

    fn write(&mut self, register: u8, bytes: &[u8]) -> Result<(), Missed> {
        if !can_write(bytes.len()) {
            return Err(Missed);
        }
        match self.take_entry() {
            Entry::Clean => self.link.write(register, bytes),
            Entry::Lost => Err(Missed),
            Entry::Unheard => {
                let _ = self.link.write(register, bytes);
                Err(Missed)
            }
        }
    }

    fn read(&mut self, register: u8, buf: &mut [u8]) -> Result<(), Missed> {
        let count = buf.len();
        if !can_read(count) {
            return Err(Missed);
        }
        match self.take_entry() {
            Entry::Clean => self.link.read(register, buf),
            Entry::Lost => Err(Missed),
            Entry::Unheard => {
                let mut unheard = [0; MOST_READ];
                let _ = self.link.read(register, &mut unheard[..count]);
                Err(Missed)
            }
        }
    }
}

impl<L: Link> Cable<L> {
    // The entry of an exchange, which uses it up.
    fn take_entry(&mut self) -> Entry
        ensures entry { result ≡ entry_at self.old.entries self.old.at }
        ensures at { self.new.at ≡ past self.old.at }
        ensures entries { self.new.entries ≡ self.old.entries }
        ensures link { self.new.link ≡ self.old.link }
    {
        take_next(&self.entries, &mut self.at).unwrap_or(Entry::Clean)
    }
}
