// The task `gen`: the setup of a number is played in rounds, and told in one line of counts.
ghost use Rattle.std.specs.Prelude.{◌≡◌, ◌+◌, ◌≤◌, ◌++◌, ◌∷◌, [], length};
ghost use Rattle.std.specs.Fmt.{decimal};
ghost use Rattle.ule_top.specs.Making.{WroteMade};
ghost use Rattle.ule_top.specs.Summary.{IsMadeAndPlayed, count_of, is_one_of, line_of, summary_text};
ghost use Rattle.ule_trace.specs.Line.{spaced};

use std::alloc::Global;
use ule_gen::make;
use ule_io::{Memory, Sink, write_all};
use ule_seq::play;
use ule_task::{DONE, NO_MEMORY, finish};
use ule_text::LineText;
use ule_types::{Outcome, Reply};

/// Which replies are counted.
#[derive(Clone, Copy)]
pub enum Counted {
    /// Those of a switch that was done.
    Switches,
    /// Those of a thread that was woken.
    Wakes,
    /// Those of a thread that was moved.
    Moves,
}

/// Whether a reply is one of those that are counted.
fn is_one_of(which: Counted, reply: &Reply) -> bool
    ensures { result ≡ is_one_of which reply.now }
{
    match which {
        Counted::Switches => matches!(*reply, Reply::Switched(..)),
        Counted::Wakes => matches!(*reply, Reply::Woken(..)),
        Counted::Moves => matches!(*reply, Reply::Moved(..)),
    }
}

/// The number of entries whose reply is counted.
fn count(which: Counted, o: &Outcome) -> u32
    ensures { result ≡ count_of (is_one_of which) o.now.entries }
{
    let mut n = 0;
    for k in 0..o.len() {
        if is_one_of(which, &o.entry(k + 1).reply) {
            n += 1;
        }
    }
    n
}

/// Appends a name and a number, each behind a space.
fn spell(text: &mut LineText, name: &str, n: u64)
    requires short { length name.now ≤ 10 }
    requires room { length text.old + 50 ≤ 600 }
    ensures text { text.new ≡ text.old ++ spaced (name.now ∷ decimal n ∷ []) }
    ensures growth { length text.new ≤ length text.old + 50 }
{
    text.byte(b' ');
    text.text(name);
    text.byte(b' ');
    text.number(n);
}

/// The line of the outcome of the setup of a number.
fn line_of(n: u32, o: &Outcome) -> LineText
    ensures { result ≡ line_of n o.now }
{
    let mut text = LineText::none();
    text.text("gen ");
    text.number(u64::from(n));
    spell(&mut text, "entries", u64::from(o.len()));
    spell(&mut text, "now", o.end_time());
    spell(
        &mut text,
        "switched",
        u64::from(count(Counted::Switches, o)),
    );
    spell(&mut text, "woken", u64::from(count(Counted::Wakes, o)));
    spell(&mut text, "moved", u64::from(count(Counted::Moves, o)));
    text.byte(b'\n');
    text
}

/// The outcome of the setup of a number, played in rounds.
fn play_made(alloc: Global, n: u32) -> Result<Outcome, Memory>
    requires least { 1 ≤ n }
    requires most { n ≤ 1000 }
    ensures { IsMadeAndPlayed n result }
{
    let setup = make(alloc, n)?;
    play(alloc, &setup)
}

/// Plays the setup of a number, 1..=1000, and writes its line of counts.
pub fn summarize<K: Sink>(alloc: Global, n: u32, out: &mut K) -> u8
    requires least { 1 ≤ n }
    requires most { n ≤ 1000 }
    ensures { WroteMade n (summary_text n) (K.state out.old) (K.state out.new) result }
{
    let Ok(outcome) = play_made(alloc, n) else {
        return NO_MEMORY;
    };
    let text = line_of(n, &outcome);
    let written = write_all(out, text.as_slice());
    finish(written, DONE, out)
}
