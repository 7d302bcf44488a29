ghost use Rattle.std.specs.Prelude.{◌≡◌, ℕ, ◌+◌, ◌≤◌, List, ◌++◌, length};
ghost use Rattle.ule_io.specs.Sink.{WroteWhole};
ghost use Rattle.ule_trace.specs.PlaceText.{kind_word, place_word, final_place_word};

use crate::held::{CAPACITY, Held};
use ule_io::{Sink, WriteFault, write_all};
use ule_prio::{Cpu, Kind};
use ule_score::Place;

/// The keyword of a queue kind.
pub fn kind_name(kind: Kind) -> &'static str
    ensures name { result.now ≡ kind_word kind }
    ensures short { length result.now ≤ 5 }
{
    match kind {
        Kind::Real => "real",
        Kind::Batch => "batch",
        Kind::Idle => "idle",
    }
}

fn spell_queued(held: &mut Held, cpu: Cpu, kind: Kind, bucket: u8)
    requires { length held.old + 13 ≤ CAPACITY }
    ensures text { held.new ≡ held.old ++ place_word (Place.Queued cpu kind bucket) }
    ensures growth { length held.new ≤ length held.old + 13 }
{
    held.byte(b'q');
    held.two_digits(u32::from(cpu.0));
    held.byte(b'.');
    held.text(kind_name(kind));
    held.byte(b'.');
    held.three_digits(u32::from(bucket));
}

/// Appends the text of a place.
pub fn spell_place(held: &mut Held, place: Place)
    requires { length held.old + 13 ≤ CAPACITY }
    ensures text { held.new ≡ held.old ++ place_word place }
    ensures growth { length held.new ≤ length held.old + 13 }
{
    match place {
        Place::Running(c) => {
            held.byte(b'r');
            held.two_digits(u32::from(c.0));
        }
        Place::Queued { cpu, kind, bucket } => spell_queued(held, cpu, kind, bucket),
        Place::Asleep(channel) => {
            held.byte(b's');
            held.five_digits(u32::from(channel));
        }
        Place::Unborn => held.byte(b'u'),
        Place::Gone => held.byte(b'g'),
        Place::Hand(w) => {
            held.byte(b'h');
            held.three_digits(u32::from(w));
        }
    }
}

/// Writes the text of a place, as `q0.batch.17`, and no newline. Nothing is flushed. Where a
/// write fails or takes no byte, a front of the text was taken.
pub fn write_place<K: Sink>(p: &Place, out: &mut K) -> Result<(), WriteFault>
    ensures { WroteWhole (K.state out.old) (K.state out.new) (place_word p.now) result }
{
    let mut held = Held::new();
    spell_place(&mut held, *p);
    write_all(out, held.as_slice())
}
