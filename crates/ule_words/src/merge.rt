//! The entries of all passes, told in rising number. Each entry costs a look at each pass's next one.
ghost use Rattle.std.specs.Prelude.{ℕ, ◌≡◌, ◌<◌, ◌≤◌, ◌∷◌, length, Some, slice_get};
ghost use Rattle.ule_words.specs.Ends.{entry_noted, numbered_noted};
ghost use Rattle.ule_words.specs.Merge.{BeginsWith, IsDealt};

use crate::log::Numbered;
use crate::tape::Tape;
use ule_micro::Parts;

/// The tape whose first entry has this number.
fn find<E, R>(tapes: &Vec<Tape<Numbered<E, R>>>, number: u64) -> usize
    requires { (j : ℕ) × (t : _) × (slice_get tapes.now.items j ≡ Some t) × BeginsWith number t }
    ensures { (t : _) × (slice_get tapes.now.items result ≡ Some t) × BeginsWith number t }
{
    let mut j = 0;
    while j < tapes.len() {
        if tapes[j].begins_with(number) {
            return j;
        }
        j += 1;
    }
    unreachable!()
}

/// Tells the first entry of a tape, and passes it.
fn note_first<P: Parts>(parts: &P, tape: &mut Tape<Numbered<P::Event, P::Reply>>, out: &mut P::Ends)
    requires some { 0 < length tape.old }
    requires room { 0 < (P.notes parts.now).room out.old }
    ensures { (x : _) × (tape.old ≡ x ∷ tape.new) × (out.new ≡ entry_noted (P.notes parts.now) out.old x.entry) }
{
    let first = tape.first();
    let entry = &first.entry;
    parts.note_entry(out, entry.worker, entry.now, &entry.event, &entry.reply);
    tape.pass();
}

/// Tells the entries in rising number, of which there are this many.
pub(crate) fn note_entries<P: Parts>(
    parts: &P,
    tapes: &mut Vec<Tape<Numbered<P::Event, P::Reply>>>,
    count: u64,
    out: &mut P::Ends,
)
    requires dealt { (es : _) × IsDealt (length (P.means parts.now).owns) 0 es tapes.old.items × (length es ≡ count) }
    requires room { count ≤ (P.notes parts.now).room out.old }
    ensures noted { (es : _) → IsDealt (length (P.means parts.now).owns) 0 es tapes.old.items → length es ≡ count → out.new ≡ numbered_noted (P.notes parts.now) es out.old }
{
    let mut number = 0;
    while number < count {
        let j = find(tapes, number + 1);
        note_first(parts, &mut tapes[j], out);
        number += 1;
    }
}
