ghost use Rattle.std.specs.Prelude.{◌≡◌, ℕ, ◌+◌, ◌≤◌, List, ◌++◌, length, drop};
ghost use Rattle.ule_trace.specs.Line.{spaced, line_text};
ghost use Rattle.ule_trace.specs.PlaceText.{final_place_word};
ghost use Rattle.ule_trace.specs.FinalText.{class_word, final_words, cpu_words};

use crate::held::{CAPACITY, Held, LINE};
use crate::place::spell_place;
use crate::word::Word::{Flag, Number, Signed, Text};
use crate::word::{cpu, lock, optional_cpu, optional_priority, optional_thread, priority, thread};
use ule_prio::Class;
use ule_score::{CpuLine, Place};
use ule_types::ThreadLine;

fn class_name(class: Class) -> &'static str
    ensures name { result.now ≡ class_word class }
    ensures short { length result.now ≤ 24 }
{
    match class {
        Class::Ithd => "ithd",
        Class::Rt => "rt",
        Class::Fifo => "fifo",
        Class::Ts => "ts",
        Class::Idle => "idle",
    }
}

// Appends the text of a place, with the position of a queued thread in its bucket.
fn spell_final_place(held: &mut Held, place: Place, pos: u8)
    requires { length held.old + 69 ≤ CAPACITY }
    ensures text { held.new ≡ held.old ++ final_place_word place pos }
    ensures growth { length held.new ≤ length held.old + 69 }
{
    spell_place(held, place);
    if let Place::Queued { .. } = &place {
        held.byte(b'.');
        held.number(u64::from(pos));
    }
}

// Appends the words of a thread's line behind its place, each behind a space.
fn spell_record(held: &mut Held, l: &ThreadLine)
    requires { length held.old + 425 ≤ CAPACITY }
    ensures text { held.new ≡ held.old ++ spaced (drop 3 (final_words l.now)) }
    ensures growth { length held.new ≤ length held.old + 425 }
{
    held.words(&[
        Text(class_name(l.class)),
        Signed(l.nice.0),
        priority(l.base),
        optional_priority(l.lent),
        priority(l.priority),
        Number(l.run),
        Number(l.slept),
        Number(l.ticks),
        Number(l.ltick),
        Number(l.ftick),
        Number(l.slice_count),
        Number(l.slept_at),
        cpu(l.last),
        Number(l.last_run),
        optional_cpu(l.bound),
        optional_thread(l.parent),
        lock(l.word),
    ]);
}

/// Appends the line of a thread.
pub fn spell_thread(held: &mut Held, l: &ThreadLine)
    requires { length held.old + LINE ≤ CAPACITY }
    ensures { held.new ≡ held.old ++ line_text (final_words l.now) }
{
    held.byte(b't');
    held.words(&[thread(l.id)]);
    held.byte(b' ');
    spell_final_place(held, l.place, l.pos);
    spell_record(held, l);
    held.byte(b'\n');
}

/// Appends the line of a CPU.
pub fn spell_cpu(held: &mut Held, c: u64, l: &CpuLine)
    requires { length held.old + LINE ≤ CAPACITY }
    ensures { held.new ≡ held.old ++ line_text (cpu_words c l.now) }
{
    held.byte(b'c');
    held.words(&[
        Number(c),
        Number(u64::from(l.idx)),
        Number(u64::from(l.ridx)),
        Flag(l.resched),
        Flag(l.slice_end),
        Number(l.switches),
        Number(l.old_switches),
        Number(l.balance),
    ]);
    held.byte(b'\n');
}
