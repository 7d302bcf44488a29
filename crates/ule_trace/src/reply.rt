ghost use Rattle.std.specs.Prelude.{◌≡◌, ℕ, ◌+◌, ◌≤◌, List, [], ◌∷◌, ◌++◌, length};
ghost use Rattle.ule_io.specs.Sink.{WroteWhole};
ghost use Rattle.ule_trace.specs.Line.{spaced};
ghost use Rattle.ule_trace.specs.PlaceText.{place_word};
ghost use Rattle.ule_trace.specs.ReplyText.{reply_words, reply_text};

use crate::held::{CAPACITY, Held};
use crate::place::{kind_name, spell_place};
use crate::word::Word::{Number, Text};
use ule_io::{Sink, WriteFault, write_all};
use ule_prio::{Cpu, Kind, Priority, ThreadId};
use ule_score::Place;
use ule_types::Reply;

// Appends a keyword and the place where a thread stands.
fn spell_standing(held: &mut Held, name: &'static str, place: Place)
    requires short { length name.now ≤ 24 }
    requires room { length held.old + 100 ≤ CAPACITY }
    ensures text { held.new ≡ held.old ++ spaced (name.now ∷ place_word place ∷ []) }
    ensures growth { length held.new ≤ length held.old + 100 }
{
    held.keyword(name);
    held.byte(b' ');
    spell_place(held, place);
}

fn spell_ticked(held: &mut Held, current: Option<ThreadId>, due: bool, ended: bool)
    requires { length held.old + 125 ≤ CAPACITY }
    ensures text { held.new ≡ held.old ++ spaced (reply_words (Reply.Ticked current due ended)) }
    ensures growth { length held.new ≤ length held.old + 125 }
{
    held.keyword("ticked");
    held.optional_thread(current);
    held.flag(due);
    held.flag(ended);
}

fn spell_switched(held: &mut Held, out: Option<ThreadId>, into: Option<ThreadId>, preempted: bool)
    requires { length held.old + 125 ≤ CAPACITY }
    ensures text { held.new ≡ held.old ++ spaced (reply_words (Reply.Switched out into preempted)) }
    ensures growth { length held.new ≤ length held.old + 125 }
{
    held.keyword("switched");
    held.optional_thread(out);
    held.optional_thread(into);
    held.flag(preempted);
}

fn spell_woken(held: &mut Held, p: Priority, bound: Option<Cpu>, last: Cpu, last_run: u64)
    requires { length held.old + 125 ≤ CAPACITY }
    ensures text { held.new ≡ held.old ++ spaced (reply_words (Reply.Woken p bound last last_run)) }
    ensures growth { length held.new ≤ length held.old + 125 }
{
    held.named("woken", p.0);
    held.optional_cpu(bound);
    held.small(last.0);
    held.spaced_number(last_run);
}

fn spell_seen(held: &mut Held, load: u64, movable: u64, low: Priority)
    requires { length held.old + 125 ≤ CAPACITY }
    ensures text { held.new ≡ held.old ++ spaced (reply_words (Reply.Seen load movable low)) }
    ensures growth { length held.new ≤ length held.old + 125 }
{
    held.keyword("seen");
    held.spaced_number(load);
    held.spaced_number(movable);
    held.small(low.0);
}

fn spell_landed(held: &mut Held, kind: Kind, bucket: u8, preempts: bool)
    requires { length held.old + 125 ≤ CAPACITY }
    ensures text { held.new ≡ held.old ++ spaced (reply_words (Reply.Landed kind bucket preempts)) }
    ensures growth { length held.new ≤ length held.old + 125 }
{
    held.keyword("landed");
    held.keyword(kind_name(kind));
    held.small(bucket);
    held.flag(preempts);
}

fn spell_moved(held: &mut Held, t: ThreadId, kind: Kind, bucket: u8, preempts: bool)
    requires { length held.old + 125 ≤ CAPACITY }
    ensures text { held.new ≡ held.old ++ spaced (reply_words (Reply.Moved t kind bucket preempts)) }
    ensures growth { length held.new ≤ length held.old + 125 }
{
    held.named("moved", t.0);
    held.keyword(kind_name(kind));
    held.small(bucket);
    held.flag(preempts);
}

fn spell_none_movable(held: &mut Held, load: u64, movable: u64, other: u64)
    requires { length held.old + 125 ≤ CAPACITY }
    ensures text { held.new ≡ held.old ++ spaced (reply_words (Reply.NoneMovable load movable other)) }
    ensures growth { length held.new ≤ length held.old + 125 }
{
    held.words(&[
        Text("nonemovable"),
        Number(load),
        Number(movable),
        Number(other),
    ]);
}

fn spell_exited(
    held: &mut Held,
    out: ThreadId,
    into: Option<ThreadId>,
    parent: Option<ThreadId>,
    run: u64,
)
    requires { length held.old + 125 ≤ CAPACITY }
    ensures text { held.new ≡ held.old ++ spaced (reply_words (Reply.Exited out into parent run)) }
    ensures growth { length held.new ≤ length held.old + 125 }
{
    held.named("exited", out.0);
    held.optional_thread(into);
    held.optional_thread(parent);
    held.spaced_number(run);
}

fn spell_changed(held: &mut Held, p: Priority, requeued: bool, marked: bool)
    requires { length held.old + 125 ≤ CAPACITY }
    ensures text { held.new ≡ held.old ++ spaced (reply_words (Reply.Changed p requeued marked)) }
    ensures growth { length held.new ≤ length held.old + 125 }
{
    held.named("changed", p.0);
    held.flag(requeued);
    held.flag(marked);
}

/// Appends the words of a reply, each behind a space.
pub fn spell_reply(held: &mut Held, r: &Reply)
    requires { length held.old + 125 ≤ CAPACITY }
    ensures text { held.new ≡ held.old ++ spaced (reply_words r.now) }
    ensures growth { length held.new ≤ length held.old + 125 }
{
    match *r {
        Reply::Ticked(current, due, ended) => spell_ticked(held, current, due, ended),
        Reply::Unmarked => held.keyword("unmarked"),
        Reply::Nothing => held.keyword("nothing"),
        Reply::Switched(out, into, preempted) => spell_switched(held, out, into, preempted),
        Reply::Dropped(out, into) => {
            held.named("dropped", out.0);
            held.optional_thread(into);
        }
        Reply::Bedded => held.keyword("bedded"),
        Reply::NotAsleep(place) => spell_standing(held, "notasleep", place),
        Reply::Woken(p, bound, last, last_run) => spell_woken(held, p, bound, last, last_run),
        Reply::Seen(load, movable, low) => spell_seen(held, load, movable, low),
        Reply::Landed(kind, bucket, preempts) => spell_landed(held, kind, bucket, preempts),
        Reply::Moved(t, kind, bucket, preempts) => spell_moved(held, t, kind, bucket, preempts),
        Reply::NoneMovable(load, movable, other) => spell_none_movable(held, load, movable, other),
        Reply::Changed(p, requeued, marked) => spell_changed(held, p, requeued, marked),
        Reply::NotAllowed(place) => spell_standing(held, "notallowed", place),
        Reply::Hatched => held.keyword("hatched"),
        Reply::Forked(parent, p) => held.named_pair("forked", parent.0, p.0),
        Reply::Returned => held.keyword("returned"),
        Reply::Exited(out, into, parent, run) => spell_exited(held, out, into, parent, run),
        Reply::Buried => held.keyword("buried"),
        Reply::ParentGone => held.keyword("parentgone"),
    }
}

/// Writes the text of a reply, as `switched - 0 0`, and no newline. Nothing is flushed. Where a
/// write fails or takes no byte, a front of the text was taken.
pub fn write_reply<K: Sink>(r: &Reply, out: &mut K) -> Result<(), WriteFault>
    ensures { WroteWhole (K.state out.old) (K.state out.new) (reply_text r.now) result }
{
    let mut held = Held::new();
    spell_reply(&mut held, r);
    write_all(out, held.unspaced())
}
