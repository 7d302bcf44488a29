ghost use Rattle.std.specs.Prelude.{◌≡◌, ℕ, ◌+◌, ◌≤◌, List, ◌∷◌, ◌++◌, length};
ghost use Rattle.ule_io.specs.Sink.{WroteWhole};
ghost use Rattle.ule_trace.specs.Line.{spaced};
ghost use Rattle.ule_trace.specs.EventText.{why_word, move_why_word, event_words, event_text};

use crate::held::{CAPACITY, Held};
use ule_io::{Sink, WriteFault, write_all};
use ule_score::Why;
use ule_types::{Event, MoveWhy};

// Appends why a CPU switches, behind a space.
fn spell_why(held: &mut Held, why: Why)
    requires { length held.old + 25 ≤ CAPACITY }
    ensures text { held.new ≡ held.old ++ 32 ∷ why_word why }
    ensures growth { length held.new ≤ length held.old + 25 }
{
    match why {
        Why::Yield => held.keyword("yield"),
        Why::Resched => held.keyword("resched"),
    }
}

// Appends why a thread is moved, behind a space.
fn spell_move_why(held: &mut Held, why: MoveWhy)
    requires { length held.old + 25 ≤ CAPACITY }
    ensures text { held.new ≡ held.old ++ 32 ∷ move_why_word why }
    ensures growth { length held.new ≤ length held.old + 25 }
{
    match why {
        MoveWhy::Steal => held.keyword("steal"),
        MoveWhy::Balance => held.keyword("balance"),
    }
}

/// Appends the words of an event, each behind a space.
pub fn spell_event(held: &mut Held, e: &Event)
    requires { length held.old + 100 ≤ CAPACITY }
    ensures text { held.new ≡ held.old ++ spaced (event_words e.now) }
    ensures growth { length held.new ≤ length held.old + 100 }
{
    match *e {
        Event::Tick(c) => held.named("tick", c.0),
        Event::Switch(c, why) => {
            held.named("switch", c.0);
            spell_why(held, why);
        }
        Event::Drop(c, channel) => held.named_number("drop", c.0, u64::from(channel)),
        Event::Bed(t, channel) => held.named_number("bed", t.0, u64::from(channel)),
        Event::Wake(t) => held.named("wake", t.0),
        Event::Look(c) => held.named("look", c.0),
        Event::Land(t, c) => held.named_pair("land", t.0, c.0),
        Event::Move(a, b, why) => {
            held.named_pair("move", a.0, b.0);
            spell_move_why(held, why);
        }
        Event::Lend(t, p) => held.named_pair("lend", t.0, p.0),
        Event::Unlend(t) => held.named("unlend", t.0),
        Event::Renice(t, n) => {
            held.named("renice", t.0);
            held.nice(n);
        }
        Event::Hatch(t) => held.named("hatch", t.0),
        Event::Fork(c, t) => held.named_pair("fork", c.0, t.0),
        Event::Return(t) => held.named("return", t.0),
        Event::Exit(c) => held.named("exit", c.0),
        Event::Bury(t) => held.named("bury", t.0),
        Event::Inherit(t, run) => held.named_number("inherit", t.0, run),
    }
}

/// Writes the text of an event, as `switch 0 yield`, and no newline. Nothing is flushed. Where a
/// write fails or takes no byte, a front of the text was taken.
pub fn write_event<K: Sink>(e: &Event, out: &mut K) -> Result<(), WriteFault>
    ensures { WroteWhole (K.state out.old) (K.state out.new) (event_text e.now) result }
{
    let mut held = Held::new();
    spell_event(&mut held, e);
    write_all(out, held.unspaced())
}
