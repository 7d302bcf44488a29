ghost use Rattle.std.specs.Prelude.{◌≡◌, ◌+◌, ◌*◌, ◌<◌, ◌≤◌, true, ◌++◌, length, Some, IfOk, All};
ghost use Rattle.std.specs.List.{filter_map, range_with_len};
ghost use Rattle.ule_io.specs.Sink.{WroteWhole};
ghost use Rattle.ule_micro.specs.States.{lock_holder, word_of};
ghost use Rattle.ule_parts.specs.Workers.{declared_ids_of};
ghost use Rattle.ule_trace.specs.Line.{line_text, lines_text};
ghost use Rattle.ule_types.specs.Commands.{is_among};
ghost use Rattle.ule_weave.specs.TurnText.{threads_words, TellsEntry};
ghost use Rattle.ule_weave.specs.WeaveText.{IsSoundThroughout, declared_in_order, done_words, opened, places_in, turn_lines, weave_text};

use crate::declared::declared_threads;
use crate::line::spell_turn;
use crate::stand::{spell_end, spell_locks, spell_thread};
use std::alloc::Global;
use std::marker::Model;
use ule_io::{Memory, Sink, WriteFault, write_all};
use ule_micro::{Micro, Turn};
use ule_prio::ThreadId;
use ule_seq::SchedParts;
use ule_seq::places::place;
use ule_trace::held::{CAPACITY, Held};
use ule_types::Setup;

/// The most bytes of the three lines of a turn.
const TURN: usize = 6500;

/// A setup's play turn by turn, before its first turn. It has all the memory that the play needs.
#[derive(Drop)]
pub struct Weave {
    micro: Micro<SchedParts>,
    threads: Vec<ThreadId>,
}

impl Model for Weave {
    ghost use Rattle.std.specs.Prelude.{◌≡◌};
    ghost use Rattle.ule_types.specs.declared.setup.Setup.{Setup};
    ghost use Rattle.ule_weave.specs.WeaveText.{declared_in_order, opened};

    ghost Value = { Setup };

    ghost view = { λ w. w.micro.parts };

    ghost invariant = { λ w. (w.micro.state ≡ opened w.micro.parts) × (w.threads.items ≡ declared_in_order w.micro.parts) };
}

impl Weave {
    /// The play of a setup.
    pub fn start(alloc: Global, s: &Setup) -> Result<Weave, Memory>
        ensures { IfOk result (λ w. w ≡ s.now) }
    {
        let parts = SchedParts::start(alloc, s)?;
        let micro = Micro::start(alloc, parts)?;
        let threads = declared_threads(alloc, s)?;
        Ok(Weave { micro, threads })
    }

    /// Makes the turns of its setup, and writes the weave text: what each turn did, the locks held
    /// behind it, and where each thread stood. It goes out in pieces of at most 8,192 bytes, and
    /// nothing is flushed. Where a write fails or takes no byte, a front of the text was taken.
    pub fn write<K: Sink>(self, s: &Setup, out: &mut K) -> Result<(), WriteFault>
        requires { self ≡ s.now }
        ensures written { WroteWhole (K.state out.old) (K.state out.new) (weave_text s.now) result }
        ensures sound { IsSoundThroughout s.now (opened s.now) s.now.turns }
    {
        let Weave { mut micro, threads } = self;
        let mut held = Held::new();
        held.text("ule-weave 1\n");
        let turns = s.turns.as_slice();
        for (k, worker) in turns.iter().enumerate() {
            let turn = micro.advance(*worker);
            held.make_room_for(TURN, out)?;
            spell_lines(&mut held, &micro, k as u64 + 1, *worker, &turn, &threads);
        }
        held.make_room_for(TURN, out)?;
        spell_done(&mut held, turns.len() as u64, u64::from(micro.ticket()));
        write_all(out, held.as_slice())
    }
}

/// Appends the three lines of a turn.
fn spell_lines(
    held: &mut Held,
    m: &Micro<SchedParts>,
    i: u64,
    worker: u8,
    turn: &Turn,
    threads: &Vec<ThreadId>,
)
    requires room { length held.old + TURN ≤ CAPACITY }
    requires entry { TellsEntry m.now.state turn.now }
    requires declared { threads.now.items ≡ declared_in_order m.now.parts }
    ensures { held.new ≡ held.old ++ lines_text (turn_lines m.now.parts i worker turn.now m.now.state) }
{
    spell_turn(held, m, i, worker, turn);
    spell_locks(held, m);
    spell_threads(held, m, threads.as_slice());
}

/// Appends the line of the declared threads, each with its word and its place.
fn spell_threads(held: &mut Held, m: &Micro<SchedParts>, threads: &[ThreadId])
    requires room { length held.old + 5650 ≤ CAPACITY }
    requires few { length threads.now ≤ 256 }
    requires declared { All (λ t. is_among (declared_ids_of m.now.parts) t ≡ true) threads.now }
    ensures text { held.new ≡ held.old ++ line_text (threads_words (word_of m.now.state) (places_in m.now.parts m.now.state) threads.now) }
{
    held.text("threads");
    let mut any = false;
    for t in threads {
        spell_thread(held, *t, &m.word(*t), place(m, *t));
        any = true;
    }
    spell_end(held, any);
}

/// Appends the last line: how many turns there were, and how many entries they made.
fn spell_done(held: &mut Held, turns: u64, entries: u64)
    requires { length held.old + 100 ≤ CAPACITY }
    ensures { held.new ≡ held.old ++ line_text (done_words turns entries) }
{
    held.text("done");
    held.spaced_number(turns);
    held.spaced_number(entries);
    held.byte(b'\n');
}
