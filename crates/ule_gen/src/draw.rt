// Drawing commands.
ghost use Rattle.std.specs.Prelude.{◌≡◌, ◌<◌};
ghost use Rattle.ule_gen.specs.Generated.{drawn_below, command_by, generated, lends, naming};

use ule_prio::{Priority, ThreadId};
use ule_search::stepped_word;
use ule_types::Command;

/// A command, with the word after its last draw.
#[derive(Clone, Copy)]
pub struct Drawn {
    pub command: Command,
    pub word: u32,
}

/// The number below another that a word draws.
fn drawn_below(n: u32, word: u32) -> u32
    requires { 0 < n }
    ensures value { result ≡ drawn_below n word }
    ensures small { result < n }
{
    (word / 65_536) % n
}

/// The number of a thread, by one more draw.
fn thread(word: u32) -> ThreadId
    ensures { result ≡ drawn_below 24 word }
{
    ThreadId(drawn_below(24, word) as u8)
}

/// A command by a draw below 16, with the word of the draw.
fn command_by(d: u32, word: u32) -> Drawn
    ensures { result ≡ command_by d word }
{
    let next = stepped_word(word);
    match d {
        0..=4 => Drawn {
            command: Command::Tick,
            word,
        },
        5..=6 => Drawn {
            command: Command::Time(8),
            word,
        },
        7..=8 => Drawn {
            command: Command::Yield,
            word,
        },
        9 => Drawn {
            command: Command::Resched,
            word,
        },
        10 => Drawn {
            command: Command::Sleep(drawn_below(4, next) as u16),
            word: next,
        },
        11..=12 => Drawn {
            command: Command::Wake(thread(next)),
            word: next,
        },
        13 => Drawn {
            command: Command::Idle,
            word,
        },
        14 => Drawn {
            command: Command::Lend(thread(next), Priority(100)),
            word: next,
        },
        _ => Drawn {
            command: Command::Unlend(thread(next)),
            word: next,
        },
    }
}

/// The next command behind a word.
#[tactic(auto, unfolding(crate::specs::Generated::generated))]
pub fn generated(word: u32) -> Drawn
    ensures { result ≡ generated word }
{
    let word = stepped_word(word);
    command_by(drawn_below(16, word), word)
}
