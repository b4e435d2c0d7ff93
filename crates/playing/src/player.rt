// Exchanges played on a link.
use super::digits::{digit, pair, paired};
use super::fault::PlayFault;
use super::links::Seen;
use chip::State;
use outcomes::vouch;
use sensor::{Link, Missed, Stage};
use std::alloc::Global;
use std::fmt;

// A link, and what the exchanges so far came to.
#[derive(Drop)]
struct Player<L> {
    heap: Global,
    link: L,
    words: String,
}

impl<L: Link + Seen> Player<L> {
    // One exchange; S asks for the sensor's state.
    fn play(&mut self, exchange: &[u8]) -> Result<(), PlayFault> {
        match exchange {
            [b'S'] => {
                let state = InWords(self.link.seen());
                write!(self.words, "{state}")?;
                Ok(())
            }
            [b'W', high, low, b':', digits @ ..] => {
                let register = pair(&[*high, *low])?;
                let bytes = paired(self.heap, digits)?;
                self.write(register, bytes.as_slice())
            }
            [b'R', high, low, b':', count] => self.read(pair(&[*high, *low])?, digit(*count)?),
            _ => Err(PlayFault::NoPlay),
        }
    }

    fn write(&mut self, register: u8, bytes: &[u8]) -> Result<(), PlayFault> {
        self.words.push_str(match self.link.write(register, bytes) {
            Ok(()) => "ack",
            Err(Missed) => "missed",
        })?;
        Ok(())
    }

    fn read(&mut self, register: u8, count: u8) -> Result<(), PlayFault> {
        let mut buf = vec![in self.heap; 0xA5; count as usize]?;
        if let Err(Missed) = self.link.read(register, buf.as_mut_slice()) {
            self.words.push_str("missed")?;
            return Ok(());
        }
        self.words.push('=')?;
        for byte in buf.as_slice() {
            write!(self.words, "{byte:02X}")?;
        }
        Ok(())
    }
}

// What all exchanges come to, a word for each.
pub fn all_played<L: Link + Seen + Drop>(
    heap: Global,
    link: L,
    exchanges: &[u8],
) -> Result<Vec<u8>, PlayFault> {
    vouch(&link);
    let words = String::new(heap);
    let mut player = Player { heap, link, words };
    for exchange in exchanges.split_inclusive(|c| *c == b' ') {
        if !player.words.is_empty() {
            player.words.push(' ')?;
        }
        player.play(exchange.strip_suffix(b" ").unwrap_or(exchange))?;
    }
    Ok(player.words.into_bytes())
}

// A state as its stage, pointer, status and marks.
#[derive(Clone, Copy)]
struct InWords(State);

impl fmt::Display for InWords {
    fn fmt<W: fmt::Write>(&self, f: &mut fmt::Formatter<W>) -> fmt::Result {
        let stage = stage_word(self.0.stage);
        let pointer = self.0.pointer;
        let status = self.0.status;
        let remapped = mark(self.0.remapped, "r");
        let opened = mark(self.0.opened, "o");
        let working = mark(self.0.working, "w");
        write!(f, "{stage}.{pointer}.{status}.{remapped}{opened}{working}")
    }
}

fn stage_word(stage: Stage) -> &'static str {
    match stage {
        Stage::Asleep => "asleep",
        Stage::Starting => "starting",
        Stage::Loader => "loader",
        Stage::Application => "application",
    }
}

// A mark's letter, or a dash.
fn mark(set: bool, letter: &'static str) -> &'static str {
    if set { letter } else { "-" }
}
