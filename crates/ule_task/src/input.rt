// The scenario that a source gives, and why there is none.
ghost use Rattle.std.specs.Prelude.{◌≡◌, ℕ, List, Result};
ghost use Rattle.ule_scenario.specs.ReaderKept.{HasRead};
ghost use Rattle.ule_scenario.specs.Reading.{Reading};
ghost use Rattle.ule_scenario.specs.Scenario.{IsFaultFor, read_bytes};
ghost use Rattle.ule_scenario.specs.declared.reason.Refusal.{Refusal};
ghost use Rattle.ule_task.specs.Input.{IsHad, IsToldAs, Tells, refusal_text};
ghost use Rattle.ule_task.specs.Scenario.{scenario_intake};

use crate::output::{NO_MEMORY, READ_FAULT, REFUSED, finish};
use std::alloc::Global;
use ule_io::{ReadAllFault, Sink, Source, write_all};
use ule_scenario::{Reader, Refusal, feed_all};
use ule_text::LineText;
use ule_types::{ScenarioFault, Setup};

/// The most bytes that a scenario may have.
const SCENARIO_LIMIT: usize = 1_048_576;

/// The refusal of an input that is longer than it may be.
pub const TOO_LONG: Refusal = Refusal {
    line: 0,
    reason: 5,
    detail: 0,
};

/// Why a source gives no setup.
#[derive(Clone, Copy)]
pub enum Unread {
    /// A read failed.
    ReadFault,
    /// What was read is refused so.
    Refused(Refusal),
    /// Memory ran out.
    Memory,
}

/// Why a reader of a scenario gave no setup.
pub fn why_refused(fault: ScenarioFault) -> Unread
    ensures { (told : Result Reading Refusal) → IsFaultFor fault told → IsToldAs (Err result) told }
{
    match fault {
        ScenarioFault::Refused {
            line,
            reason,
            detail,
        } => Unread::Refused(Refusal {
            line,
            reason,
            detail,
        }),
        ScenarioFault::Memory => Unread::Memory,
    }
}

/// The setup that a reader has read, or why there is none.
fn read_so(reader: Reader) -> Result<Setup, Unread>
    ensures { (input : List ℕ) → HasRead reader input → IsToldAs result (read_bytes input) }
{
    match reader.finish() {
        Ok(setup) => Ok(setup),
        Err(fault) => Err(why_refused(fault)),
    }
}

/// The setup that the whole input spells, or why there is none. The input is read to its end, unless
/// it is longer than a scenario may be: then it is refused, and one byte more than that was taken.
pub fn read_setup<S: Source>(alloc: Global, src: &mut S) -> Result<Setup, Unread>
    ensures { IsHad scenario_intake (S.state src.old) (S.state src.new) result }
{
    let Ok(mut reader) = Reader::start(alloc) else {
        return Err(Unread::Memory);
    };
    match feed_all(src, SCENARIO_LIMIT, &mut reader) {
        Ok(()) => read_so(reader),
        Err(ReadAllFault::ReadFault) => Err(Unread::ReadFault),
        Err(ReadAllFault::TooLong) => Err(Unread::Refused(TOO_LONG)),
        Err(ReadAllFault::Memory) => Err(Unread::Memory),
    }
}

/// The text of a refusal.
fn refusal_text(x: Refusal) -> LineText
    ensures { result ≡ refusal_text x }
{
    let mut text = LineText::none();
    text.text("refused ");
    text.number(u64::from(x.line));
    text.byte(b' ');
    text.number(u64::from(x.reason));
    text.byte(b' ');
    text.number(u64::from(x.detail));
    text.byte(b'\n');
    text
}

/// Writes the line of a refusal.
fn refuse<K: Sink>(x: Refusal, out: &mut K) -> u8
    ensures { Tells (Unread.Refused x) (K.state out.old) (K.state out.new) result }
{
    let text = refusal_text(x);
    let written = write_all(out, text.as_slice());
    finish(written, REFUSED, out)
}

/// Tells why there is no setup: the status, and for a refusal its line.
pub fn tell<K: Sink>(why: Unread, out: &mut K) -> u8
    ensures { Tells why (K.state out.old) (K.state out.new) result }
{
    match why {
        Unread::ReadFault => READ_FAULT,
        Unread::Refused(x) => refuse(x, out),
        Unread::Memory => NO_MEMORY,
    }
}
