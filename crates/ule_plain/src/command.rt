ghost use Rattle.std.specs.Prelude.{◌≡◌, ◌+◌, ◌≤◌, [], ◌∷◌, ◌++◌, length};
ghost use Rattle.std.specs.Fmt.{decimal};
ghost use Rattle.ule_plain.specs.Commands.{command_words};
ghost use Rattle.ule_trace.specs.Line.{joined, line_text};

use ule_trace::held::{CAPACITY, Held, LINE};
use ule_types::Command;

// Appends a keyword and the number of a thread or a CPU.
fn spell_named(held: &mut Held, name: &str, n: u8)
    requires short { length name.now ≤ 24 }
    requires room { length held.old + 49 ≤ CAPACITY }
    ensures text { held.new ≡ held.old ++ joined (name.now ∷ decimal n ∷ []) }
    ensures growth { length held.new ≤ length held.old + 49 }
{
    held.text(name);
    held.small(n);
}

// Appends a keyword and another number.
fn spell_counted(held: &mut Held, name: &str, n: u64)
    requires short { length name.now ≤ 24 }
    requires room { length held.old + 49 ≤ CAPACITY }
    ensures text { held.new ≡ held.old ++ joined (name.now ∷ decimal n ∷ []) }
    ensures growth { length held.new ≤ length held.old + 49 }
{
    held.text(name);
    held.spaced_number(n);
}

// Appends the words of a command.
fn spell_words(held: &mut Held, c: &Command)
    requires { length held.old + 99 ≤ CAPACITY }
    ensures text { held.new ≡ held.old ++ joined (command_words c.now) }
    ensures growth { length held.new ≤ length held.old + 99 }
{
    match *c {
        Command::Tick => held.text("tick"),
        Command::Time(k) => spell_counted(held, "time", u64::from(k)),
        Command::Yield => held.text("yield"),
        Command::Resched => held.text("resched"),
        Command::Sleep(channel) => spell_counted(held, "sleep", u64::from(channel)),
        Command::Wake(t) => spell_named(held, "wake", t.0),
        Command::Lend(t, p) => {
            spell_named(held, "lend", t.0);
            held.small(p.0);
        }
        Command::Unlend(t) => spell_named(held, "unlend", t.0),
        Command::Renice(t, n) => {
            spell_named(held, "renice", t.0);
            held.nice(n);
        }
        Command::Fork(t) => spell_named(held, "fork", t.0),
        Command::Exit => held.text("exit"),
        Command::Idle => held.text("idle"),
        Command::Balance => held.text("balance"),
        Command::Look(c) => spell_named(held, "look", c.0),
    }
}

/// Appends the line of a command.
pub fn spell_command(held: &mut Held, c: &Command)
    requires { length held.old + LINE ≤ CAPACITY }
    ensures { held.new ≡ held.old ++ line_text (command_words c.now) }
{
    spell_words(held, c);
    held.byte(b'\n');
}
