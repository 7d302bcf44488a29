//! The lines of what stands behind a turn.
ghost use Rattle.std.specs.Prelude.{◌≡◌, ℕ, ◌+◌, ◌*◌, ◌<◌, ◌≤◌, List, [], ◌∷◌, ◌++◌, length, Option, Some, is_some, option_to_list, true, false, ◌||◌};
ghost use Rattle.std.specs.List.{filter_map, range_with_len};
ghost use Rattle.ule_micro.specs.States.{lock_holder};
ghost use Rattle.ule_trace.specs.Line.{spaced, line_text};
ghost use Rattle.ule_weave.specs.TurnText.{held_word, locks_words, or_dash, thread_word};

use crate::line::spell_word;
use ule_micro::locks::LOCKS;
use ule_micro::{Micro, Parts, Word};
use ule_prio::{LockId, ThreadId};
use ule_score::Place;
use ule_trace::held::{CAPACITY, Held};
use ule_trace::spell_place;

/// Appends the line of the held locks, each with the worker that holds it.
pub(crate) fn spell_locks<P: Parts>(held: &mut Held, m: &Micro<P>)
    requires { length held.old + 250 ≤ CAPACITY }
    ensures text { held.new ≡ held.old ++ line_text (locks_words (lock_holder m.now.state)) }
    ensures growth { length held.new ≤ length held.old + 250 }
{
    held.text("locks");
    let mut any = false;
    for l in 0..LOCKS {
        any = spell_lock(held, l, m.holder(LockId(l)), any);
    }
    spell_end(held, any);
}

/// Appends a lock with the worker that holds it, if one does, behind a space. Gives whether any
/// lock was told by then, where `any` says so of those before.
fn spell_lock(held: &mut Held, l: u8, holder: Option<u8>, any: bool) -> bool
    requires small { l < 100 }
    requires room { length held.old + 8 ≤ CAPACITY }
    ensures told { result ≡ (any || is_some holder) }
    ensures text { held.new ≡ held.old ++ spaced (option_to_list (held_word l holder)) }
    ensures growth { length held.new ≤ length held.old + 8 }
{
    let Some(worker) = holder else {
        return any;
    };
    held.byte(b' ');
    held.two_digits(u32::from(l));
    held.text("=w");
    held.three_digits(u32::from(worker));
    true
}

/// Appends a thread with its word and its place, behind a space.
pub(crate) fn spell_thread(held: &mut Held, t: ThreadId, word: &Word, place: Place)
    requires { length held.old + 22 ≤ CAPACITY }
    ensures text { held.new ≡ held.old ++ spaced (thread_word t word.now place ∷ []) }
    ensures growth { length held.new ≤ length held.old + 22 }
{
    held.byte(b' ');
    held.three_digits(u32::from(t.0));
    held.byte(b':');
    spell_word(held, word);
    held.byte(b'@');
    spell_place(held, place);
}

/// Ends a line of words, of which there may be none.
pub(crate) fn spell_end(held: &mut Held, any: bool)
    requires { length held.old + 3 ≤ CAPACITY }
    ensures some { any ≡ true → held.new ≡ held.old ++ 10 ∷ [] }
    ensures none { any ≡ false → held.new ≡ held.old ++ spaced (or_dash []) ++ 10 ∷ [] }
    ensures growth { length held.new ≤ length held.old + 3 }
{
    if !any {
        held.text(" -");
    }
    held.byte(b'\n');
}
