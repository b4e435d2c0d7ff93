// A case: the kind, what becomes of the exchanges, and the exchanges.
ghost use Rattle.std.specs.Prelude.{◌<◌, length};

use super::choices::choice_of;
use super::digits::paired;
use super::fault::PlayFault;
use super::links::Seen;
use super::player::all_played;
use adversary::{Adversary, Choice};
use cable::{Cable, Entry};
use chip::RamFault;
use sensor::{Kind, Link, Tmf8x0x, Tmf882x};
use simulator::Simulated;
use std::alloc::Global;

// What each exchange comes to, and the RAM afterwards.
#[derive(Drop)]
pub struct Played {
    pub words: Vec<u8>,
    pub ram: Vec<u8>,
}

// A case without its kind, which may be played on either.
trait Case {
    // What its exchanges come to on a sensor of the kind, over this RAM.
    fn on<K: Kind + Drop>(
        &self,
        heap: Global,
        kind: K,
        ram: &mut [u8],
    ) -> Result<Vec<u8>, PlayFault>;
}

// On a simulated sensor, perhaps over a cable.
#[derive(Drop)]
struct Scripted<'c> {
    script: Vec<u8>,
    entries: &'c [u8],
    exchanges: &'c [u8],
}

// On the adversary.
#[derive(Drop)]
struct Chosen<'c> {
    choices: Vec<Choice>,
    exchanges: &'c [u8],
}

impl Case for Scripted<'_> {
    fn on<K: Kind + Drop>(
        &self,
        heap: Global,
        kind: K,
        ram: &mut [u8],
    ) -> Result<Vec<u8>, PlayFault> {
        match Simulated::<K>::new(ram, self.script.as_slice()) {
            Ok(sensor) => wired(heap, sensor, self.entries, self.exchanges),
            Err(refused) => fault_words(heap, refused.fault),
        }
    }
}

impl Case for Chosen<'_> {
    fn on<K: Kind + Drop>(
        &self,
        heap: Global,
        kind: K,
        ram: &mut [u8],
    ) -> Result<Vec<u8>, PlayFault> {
        match Adversary::new(kind, ram, self.choices.as_slice()) {
            Ok(sensor) => all_played(heap, sensor, self.exchanges),
            Err(refused) => fault_words(heap, refused.fault),
        }
    }
}

// The exchanges on a sensor, over a cable where the case has one.
fn wired<L: Link + Seen + Drop>(
    heap: Global,
    link: L,
    entries: &[u8],
    exchanges: &[u8],
) -> Result<Vec<u8>, PlayFault> {
    if let [b'-'] = entries {
        return all_played(heap, link, exchanges);
    }
    all_played(heap, Cable::new(link, entries_of(entries)?), exchanges)
}

// The cable's entries: a digit for each, and clean ones after them.
fn entries_of(digits: &[u8]) -> Result<[Entry; 64], PlayFault> {
    let mut entries = [Entry::Clean; 64];
    if digits.len() > entries.len() {
        return Err(PlayFault::NoPlay);
    }
    for (entry, digit) in entries.iter_mut().zip(digits) {
        *entry = match digit {
            b'0' => Entry::Clean,
            b'1' => Entry::Lost,
            b'2' => Entry::Unheard,
            _ => return Err(PlayFault::NoPlay),
        };
    }
    Ok(entries)
}

// A refusal in words.
fn fault_words(heap: Global, fault: RamFault) -> Result<Vec<u8>, PlayFault> {
    let number = fault.number();
    Ok(format!(in heap; "fault {number}")?.into_bytes())
}

// A script: digit pairs, or a dash for none.
fn script_of(heap: Global, digits: &[u8]) -> Result<Vec<u8>, PlayFault> {
    match digits {
        [b'-'] => Ok(Vec::new(heap)),
        _ => paired(heap, digits),
    }
}

// The choices of a case: a word for each, with commas between them, or a dash for none.
fn choices_of(heap: Global, words: &[u8]) -> Result<Vec<Choice>, PlayFault> {
    if let [b'-'] = words {
        return Ok(Vec::new(heap));
    }
    words
        .split_inclusive(|c| *c == b',')
        .map(|word| choice_of(word.strip_suffix(b",").unwrap_or(word)))
        .try_collect(heap)
}

// The first word, and what follows it.
fn first_word(text: &[u8]) -> (&[u8], &[u8])
    ensures { 0 < length text.now → length result.1.now < length text.now }
{
    match text.iter().position(|c| *c == b' ') {
        Some(end) => (&text[..end], &text[end + 1..]),
        None => (text, b""),
    }
}

// Plays a case on the kind of this name, over this RAM.
fn on_kind<C: Case>(
    heap: Global,
    mut ram: Vec<u8>,
    kind: &[u8],
    case: &C,
) -> Result<Played, PlayFault> {
    let words = match kind {
        b"tmf8x0x" => case.on(heap, Tmf8x0x, ram.as_mut_slice())?,
        b"tmf882x" => case.on(heap, Tmf882x, ram.as_mut_slice())?,
        _ => return Err(PlayFault::NoPlay),
    };
    Ok(Played { words, ram })
}

// A case on the adversary, over RAM of so many bytes 0xA5: the kind, the choices, and the exchanges. The RAM is asked for first.
pub fn play_choices(heap: Global, room: usize, case: &[u8]) -> Result<Played, PlayFault> {
    let ram = vec![in heap; 0xA5; room]?;
    let (kind, rest) = first_word(case);
    let (choices, exchanges) = first_word(rest);
    let choices = choices_of(heap, choices)?;
    on_kind(heap, ram, kind, &Chosen { choices, exchanges })
}

// A case on a simulated sensor, over RAM of so many bytes 0xA5: the kind, the script, the cable's entries, and the exchanges.
// The RAM is asked for first.
pub fn play(heap: Global, room: usize, case: &[u8]) -> Result<Played, PlayFault> {
    let ram = vec![in heap; 0xA5; room]?;
    let (kind, rest) = first_word(case);
    let (script, rest) = first_word(rest);
    let (entries, exchanges) = first_word(rest);
    let script = script_of(heap, script)?;
    on_kind(
        heap,
        ram,
        kind,
        &Scripted {
            script,
            entries,
            exchanges,
        },
    )
}
