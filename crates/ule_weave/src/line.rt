//! The lines of a turn.
ghost use Rattle.std.specs.Prelude.{◌≡◌, ℕ, ◌+◌, ◌<◌, ◌≤◌, List, [], ◌∷◌, ◌++◌, length, codes};
ghost use Rattle.std.specs.Fmt.{decimal};
ghost use Rattle.ule_trace.specs.EventText.{event_words};
ghost use Rattle.ule_trace.specs.FinalText.{lock_word};
ghost use Rattle.ule_trace.specs.Line.{spaced, joined, line_text, worker_word};
ghost use Rattle.ule_trace.specs.ReplyText.{reply_words};
ghost use Rattle.ule_weave.specs.TurnText.{entry_at, lock_named, step_words, outcome_words, turn_words, TellsEntry, TellsEntryOf};

use ule_micro::{Micro, Parts, StepDone, Turn, Word};
use ule_prio::{LockId, ThreadId};
use ule_trace::held::{CAPACITY, Held, LINE};
use ule_trace::{spell_event, spell_reply};
use ule_types::{Event, Reply};

/// Appends the line of a turn: its number, its worker, and what it did.
pub(crate) fn spell_turn<P: Parts<Event = Event, Reply = Reply>>(
    held: &mut Held,
    m: &Micro<P>,
    i: u64,
    worker: u8,
    turn: &Turn,
)
    requires room { length held.old + LINE ≤ CAPACITY }
    requires entry { TellsEntry m.now.state turn.now }
    ensures text { held.new ≡ held.old ++ line_text (turn_words i worker (outcome_words (entry_at m.now.state) turn.now)) }
    ensures growth { length held.new ≤ length held.old + LINE }
{
    held.text("turn");
    held.spaced_number(i);
    held.worker(worker);
    spell_outcome(held, m, turn);
    held.byte(b'\n');
}

/// Appends what a turn did, each word behind a space.
fn spell_outcome<P: Parts<Event = Event, Reply = Reply>>(held: &mut Held, m: &Micro<P>, turn: &Turn)
    requires room { length held.old + 450 ≤ CAPACITY }
    requires entry { TellsEntry m.now.state turn.now }
    ensures text { held.new ≡ held.old ++ spaced (outcome_words (entry_at m.now.state) turn.now) }
    ensures growth { length held.new ≤ length held.old + 450 }
{
    match turn {
        Turn::Moved(step) => {
            held.keyword("moved");
            spell_step(held, m, step);
        }
        Turn::Lost { lock, holder } => spell_lost(held, *lock, *holder),
        Turn::Blocked { thread } => {
            held.keyword("blocked");
            held.named("read", thread.0);
            held.keyword("b");
        }
        Turn::Finished => held.keyword("finished"),
    }
}

/// Appends a take that was lost to the holder of the lock.
fn spell_lost(held: &mut Held, lock: LockId, holder: u8)
    requires { length held.old + 100 ≤ CAPACITY }
    ensures text { held.new ≡ held.old ++ spaced (codes "lost" ∷ codes "take" ∷ decimal lock ∷ worker_word holder ∷ []) }
    ensures growth { length held.new ≤ length held.old + 100 }
{
    held.keyword("lost");
    held.keyword("take");
    held.small(lock.0);
    held.worker(holder);
}

/// Appends a step, each word behind a space.
fn spell_step<P: Parts<Event = Event, Reply = Reply>>(
    held: &mut Held,
    m: &Micro<P>,
    step: &StepDone,
)
    requires room { length held.old + 400 ≤ CAPACITY }
    requires entry { TellsEntryOf m.now.state step.now }
    ensures text { held.new ≡ held.old ++ spaced (step_words (entry_at m.now.state) step.now) }
    ensures growth { length held.new ≤ length held.old + 400 }
{
    match *step {
        StepDone::Read(t, word) => spell_read(held, t, &word),
        StepDone::Take(l) => held.named("take", l.0),
        StepDone::Release(l) => held.named("release", l.0),
        StepDone::Commit(k) => {
            let (_, _, event, reply) = m.entry(k);
            spell_commit(held, k, event, reply);
        }
        StepDone::Block(t) => held.named("block", t.0),
        StepDone::Point(t, l) => held.named_pair("point", t.0, l.0),
        StepDone::Now(n) => spell_amount(held, "now", n),
        StepDone::Advance(k) => spell_amount(held, "advance", u64::from(k)),
    }
}

/// Appends a keyword and a number, each behind a space.
fn spell_amount(held: &mut Held, name: &str, n: u64)
    requires short { length name.now ≤ 24 }
    requires room { length held.old + 50 ≤ CAPACITY }
    ensures text { held.new ≡ held.old ++ spaced (name.now ∷ decimal n ∷ []) }
    ensures growth { length held.new ≤ length held.old + 50 }
{
    held.keyword(name);
    held.spaced_number(n);
}

/// Appends a thread's word, as `0`, or `b` where it is blocked.
pub(crate) fn spell_word(held: &mut Held, word: &Word)
    requires { length held.old + 2 ≤ CAPACITY }
    ensures text { held.new ≡ held.old ++ lock_word (lock_named word.now) }
    ensures growth { length held.new ≤ length held.old + 2 }
{
    match word {
        Word::Lock(l) => held.two_digits(u32::from(l.0)),
        Word::Blocked => held.byte(b'b'),
    }
}

/// Appends the words of a read that was a step.
fn spell_read(held: &mut Held, t: ThreadId, word: &Word)
    requires { length held.old + 75 ≤ CAPACITY }
    ensures text { held.new ≡ held.old ++ spaced (codes "read" ∷ decimal t ∷ lock_word (lock_named word.now) ∷ []) }
    ensures growth { length held.new ≤ length held.old + 75 }
{
    held.named("read", t.0);
    held.byte(b' ');
    spell_word(held, word);
}

/// Appends the words of a commit: the number of the entry, the event and the reply.
fn spell_commit(held: &mut Held, k: u32, e: &Event, r: &Reply)
    requires { length held.old + 300 ≤ CAPACITY }
    ensures text { held.new ≡ held.old ++ spaced (codes "commit" ∷ decimal k ∷ event_words e.now ++ codes "->" ∷ reply_words r.now) }
    ensures growth { length held.new ≤ length held.old + 300 }
{
    spell_amount(held, "commit", u64::from(k));
    spell_event(held, e);
    held.keyword("->");
    spell_reply(held, r);
}
