// The adversary as a link.
ghost use Rattle.std.specs.Prelude.{◌≡◌};
ghost use Rattle.chip.specs.Chips.{sensor_in};
ghost use Rattle.adversary.specs.Scripted.{Scripted, started_if, next_choice, begun};
ghost use Rattle.adversary.specs.Adversaries.{scripted_in};
ghost use Rattle.adversary.specs.Adversarial.{adversarial};

use super::super::choice::Choice;
use super::Adversary;
use chip::Chip;
use sensor::{Kind, Link, Missed, can_read, can_write, take_next};

impl<K: Kind> Link for Adversary<'_, K> {
    type Model = K;

    ghost State = { Scripted };

    ghost view = { λ a. scripted_in a };

    ghost machine = { adversarial K.Kind.kind };

    fn of_its_kind()
        ensures { (adversarial K.Kind.kind).kind ≡ K.Kind.kind }
    {}

    fn write(&mut self, register: u8, bytes: &[u8]) -> Result<(), Missed> {
        if !can_write(bytes.len()) {
            return Err(Missed);
        }
        let choice = self.begin();
        let answer = choice.write::<K>(&mut self.chip, register, bytes);
        start(&mut self.chip, choice.starts_after);
        answer
    }

    fn read(&mut self, register: u8, buf: &mut [u8]) -> Result<(), Missed> {
        if !can_read(buf.len()) {
            return Err(Missed);
        }
        let choice = self.begin();
        let answer = choice.read::<K>(&mut self.chip, register, buf);
        start(&mut self.chip, choice.starts_after);
        answer
    }
}

impl<K> Adversary<'_, K> {
    // The choice of an exchange, which uses it up, with the start that comes before its effect.
    fn begin(&mut self) -> Choice
        ensures choice { result ≡ next_choice (scripted_in self.old) }
        ensures after { scripted_in self.new ≡ begun (scripted_in self.old) }
    {
        let choice = take_next(self.choices, &mut self.at).unwrap_or(Choice::clean());
        start(&mut self.chip, choice.starts_before);
        choice
    }
}

// A starting sensor starts, if so chosen.
fn start(chip: &mut Chip<'_>, starts: bool)
    ensures { sensor_in chip.new ≡ started_if starts (sensor_in chip.old) }
{
    if starts {
        chip.start();
    }
}
