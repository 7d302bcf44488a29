// The task `check`: a trace that stands right behind its scenario is judged.
ghost use Rattle.std.specs.Prelude.{◌≡◌, ◌≤◌, ◌≢◌, length};
ghost use Rattle.ule_check.specs.Judged.{judged};
ghost use Rattle.ule_top.specs.Check.{Checks, InputGave, IsInput, TellsFault, status_of, trace_told, verdict_told};
ghost use Rattle.ule_task.specs.Input.{Gave};
ghost use Rattle.ule_trace.specs.Reading.{read_bytes};

use crate::verdict_line::{write_bad, write_verdict};
use std::alloc::Global;
use ule_check::{Verdict, verdict};
use ule_io::{Bytes, ReadAllFault, Sink, Source, read_all};
use ule_scenario::read_front;
use ule_task::{DONE, ILLEGAL, NO_MEMORY, TOO_LONG, Unread, finish, tell, why_refused};
use ule_trace::{TraceFault, read_trace};
use ule_types::{Outcome, Setup};

/// The most bytes that a scenario and its trace may have.
const INPUT_LIMIT: usize = 16_777_216;

/// All bytes of the source, or why there are none. The input is read to its end, unless it is longer
/// than it may be: then it is refused, and one byte more than that was taken.
fn read_input<S: Source>(alloc: Global, src: &mut S) -> Result<Bytes, Unread>
    ensures { IsInput (S.state src.old) (S.state src.new) result }
{
    match read_all(alloc, src, INPUT_LIMIT) {
        Ok(bytes) => Ok(bytes),
        Err(ReadAllFault::ReadFault) => Err(Unread::ReadFault),
        Err(ReadAllFault::TooLong) => Err(Unread::Refused(TOO_LONG)),
        Err(ReadAllFault::Memory) => Err(Unread::Memory),
    }
}

/// Reads a scenario and the trace right behind it, and writes the verdict on the trace.
pub fn check<S: Source, K: Sink>(alloc: Global, src: &mut S, out: &mut K) -> u8
    ensures { Checks (S.state src.old) (S.state src.new) (K.state out.old) (K.state out.new) result }
{
    match read_input(alloc, src) {
        Ok(bytes) => check_input(alloc, bytes.as_slice(), out),
        Err(why) => tell(why, out),
    }
}

/// Judges the trace right behind the scenario at the front of an input.
fn check_input<K: Sink>(alloc: Global, input: &[u8], out: &mut K) -> u8
    requires { length input.now ≤ INPUT_LIMIT }
    ensures { InputGave input.now (K.state out.old) (K.state out.new) result }
{
    match read_front(alloc, input) {
        Ok((setup, count)) => check_trace(alloc, &setup, input.split_at(count).1, out),
        Err(fault) => tell(why_refused(fault), out),
    }
}

/// Judges the trace that a text is, or tells where it is none.
fn check_trace<K: Sink>(alloc: Global, setup: &Setup, text: &[u8], out: &mut K) -> u8
    ensures { Gave (trace_told setup.now (read_bytes text.now)) (K.state out.old) (K.state out.new) result }
{
    match read_trace(alloc, text) {
        Ok(outcome) => judge(alloc, setup, &outcome, out),
        Err(fault) => tell_fault(fault, out),
    }
}

/// Tells where a text is no trace, or that there was no memory to read it.
fn tell_fault<K: Sink>(fault: TraceFault, out: &mut K) -> u8
    ensures { TellsFault fault (K.state out.old) (K.state out.new) result }
{
    match fault {
        TraceFault::Bad { line } => {
            let written = write_bad(line, out);
            finish(written, ILLEGAL, out)
        }
        TraceFault::Memory => NO_MEMORY,
    }
}

/// The status of a verdict.
fn status_of(verdict: &Verdict) -> u8
    ensures value { result ≡ status_of verdict.now }
    ensures no_fault { result ≢ 4 }
{
    match *verdict {
        Verdict::Legal => DONE,
        Verdict::Illegal { .. } => ILLEGAL,
    }
}

/// Judges a trace and writes the line of the verdict.
fn judge<K: Sink>(alloc: Global, setup: &Setup, outcome: &Outcome, out: &mut K) -> u8
    ensures { Gave (verdict_told (length outcome.now.entries) (judged setup.now outcome.now)) (K.state out.old) (K.state out.new) result }
{
    let Ok(judged) = verdict(alloc, setup, outcome) else {
        return NO_MEMORY;
    };
    let written = write_verdict(outcome.len(), &judged, out);
    finish(written, status_of(&judged), out)
}
