// The command of a line.
ghost use Rattle.std.specs.Prelude.{◌≡◌, List, [], ◌∷◌, None};
ghost use Rattle.ule_scenario.specs.WordsKept.{seen};
ghost use Rattle.ule_scenario.specs.declared.token.Token.{Token};
ghost use Rattle.ule_scenario.specs.Forms.{first_fault, number_faults};
ghost use Rattle.ule_scenario.specs.Effects.{command_in};

use crate::name::Name;
use crate::number::{cpu, id, nice, priority, word};
use crate::words::Words;
use ule_types::Command;

/// The command of a line, if it has one.
#[tactic(auto, using(crate::proofs::Faults::first_passes, crate::proofs::Faults::second_passes))]
#[inline(always)]
pub(crate) fn command_in(words: &Words, first: Name) -> Option<Command>
    ensures { (line : List Token) → words.now ≡ seen line → first_fault (number_faults line first) ≡ None → result ≡ command_in line first }
{
    let one = words.word(1);
    let two = words.word(2);
    match first {
        Name::Tick => Some(Command::Tick),
        Name::Time => Some(Command::Time(word(&one, 1_000_000))),
        Name::Yield => Some(Command::Yield),
        Name::Resched => Some(Command::Resched),
        Name::Sleep => Some(Command::Sleep(word(&one, 65_535) as u16)),
        Name::Wake => Some(Command::Wake(id(&one))),
        Name::Lend => Some(Command::Lend(id(&one), priority(&two))),
        Name::Unlend => Some(Command::Unlend(id(&one))),
        Name::Renice => Some(Command::Renice(id(&one), nice(&two))),
        Name::Fork => Some(Command::Fork(id(&one))),
        Name::Exit => Some(Command::Exit),
        Name::Idle => Some(Command::Idle),
        Name::Balance => Some(Command::Balance),
        Name::Look => Some(Command::Look(cpu(&one))),
        _ => None,
    }
}
