// The lines of a trace so far, and the reader.
ghost use Rattle.std.specs.Prelude.{◌≡◌, ◌<◌, ◌≤◌, ◌∷◌, ◌==◌, ◌&&◌, nat_lt, length, IfOk};
ghost use Rattle.std.specs.List.{list_all};
ghost use Rattle.ule_trace.specs.Parts.{whole};
ghost use Rattle.ule_trace.specs.LineForm.{entry_form, thread_form, cpu_form};
ghost use Rattle.ule_trace.specs.Reading.{no_lines, lines_in, with_header, with_entry, with_thread, with_cpu_line, with_now, with_count, is_behind_header, version, time, count, after_words, after_line, Goes, read_bytes, IsOutcomeOf, IsReadAs};

use crate::fault::TraceFault;
use crate::line_form::NumberedLine;
use crate::parts::Parts;
use std::alloc::Global;
use std::marker::Model;
use ule_io::Memory;
use ule_prio::ThreadId;
use ule_types::{Entry, Outcome, ThreadLine};

/// How many entries a trace has at most.
const ENTRIES: u32 = 65_536;

/// What the lines of a trace so far give.
#[derive(Drop)]
pub struct Reading {
    // Which line stands last: none, the header or an entry, a thread's line, a CPU's line, the
    // time at the end, the number of entries.
    place: u8,
    outcome: Outcome,
}

impl Model for Reading {
    ghost use Rattle.ule_trace.specs.Reading as lines;

    ghost Value = { lines.Reading };

    ghost use Rattle.ule_trace.specs.ReadingView.{reading_shown, KeepsRoom};

    ghost view = { reading_shown };

    ghost invariant = { KeepsRoom };
}

/// Whether a line is of a thread of a lower number.
fn is_before(m: &ThreadLine, id: ThreadId) -> bool
    ensures { result ≡ nat_lt m.now.id id }
{
    m.id.0 < id.0
}

/// Whether all lines are of threads of lower numbers.
fn are_before(lines: &[ThreadLine], id: ThreadId) -> bool
    ensures { result ≡ list_all (λ m. nat_lt m.id id) lines.now }
{
    lines.iter().all(|m| is_before(m, id))
}

/// Whether all thread lines are of lower numbers.
fn are_all_before(o: &Outcome, id: ThreadId) -> bool
    ensures { result ≡ list_all (λ m. nat_lt m.id id) o.now.threads }
{
    are_before(o.threads(), id)
}

/// Whether the header stands, and no line behind this place does.
fn is_behind_header(place: u8, last: u8) -> bool
    ensures { result ≡ is_behind_header place last }
{
    1 <= place && place <= last
}

/// How many thread lines there are.
#[tactic(auto, using(crate::proofs::Lines::few_rising))]
fn thread_count(o: &Outcome) -> u32
    ensures value { result ≡ length o.now.threads }
    ensures small { result ≤ 256 }
{
    o.threads().len() as u32
}

/// How many CPU lines there are.
fn cpu_count(o: &Outcome) -> u32
    ensures value { result ≡ length o.now.cpus }
    ensures small { result ≤ 16 }
{
    o.cpus().len() as u32
}

/// The version behind `ule-trace`.
fn version(mut parts: Parts<'_>) -> Option<()>
    ensures { result ≡ version parts.entry }
{
    let n = parts.next()?;
    if n == b"1".as_slice() && parts.is_at_end() {
        Some(())
    } else {
        None
    }
}

/// The time behind `now`.
fn time(mut parts: Parts<'_>) -> Option<u64>
    ensures { result ≡ time parts.entry }
{
    let now = parts.amount()?;
    if parts.is_at_end() { Some(now) } else { None }
}

/// The number of entries behind `done`.
fn count(mut parts: Parts<'_>) -> Option<u64>
    ensures { result ≡ count parts.entry }
{
    let n = parts.number(65_536)?;
    if parts.is_at_end() { Some(n) } else { None }
}

/// The thread's line behind `t`.
fn thread_line(mut parts: Parts<'_>) -> Option<ThreadLine>
    ensures { result ≡ whole (thread_form parts.entry) }
{
    let line = parts.thread_line()?;
    if parts.is_at_end() { Some(line) } else { None }
}

/// The CPU's line behind `c`.
fn cpu_line(mut parts: Parts<'_>) -> Option<NumberedLine>
    ensures { result ≡ whole (cpu_form parts.entry) }
{
    let line = parts.cpu_line()?;
    if parts.is_at_end() { Some(line) } else { None }
}

/// The entry of this number, by its first word and those behind.
fn entry(first: &[u8], mut parts: Parts<'_>, k: u64) -> Option<Entry>
    ensures { result ≡ whole (entry_form k (first.now ∷ parts.entry)) }
{
    let e = parts.entry(k, first)?;
    if parts.is_at_end() { Some(e) } else { None }
}

impl Reading {
    /// No line.
    fn none(alloc: Global) -> Result<Self, Memory>
        ensures { IfOk result (λ r. r ≡ no_lines) }
    {
        let outcome = Outcome::with_room(alloc, ENTRIES)?;
        Ok(Reading { place: 0, outcome })
    }

    /// How many lines there are.
    fn lines(&self) -> u32
        ensures value { result ≡ lines_in self.now }
        ensures small { result < 70000 }
    {
        u32::from(self.place.min(1))
            + self.outcome.len()
            + thread_count(&self.outcome)
            + cpu_count(&self.outcome)
            + u32::from(self.place.saturating_sub(3))
    }

    fn with_header(&mut self, told: Option<()>) -> bool
        ensures { Goes (with_header self.old told) result self.new }
    {
        let Some(()) = told else {
            return false;
        };
        if self.place != 0 {
            return false;
        }
        self.place = 1;
        true
    }

    fn with_entry(&mut self, told: Option<Entry>) -> bool
        ensures { Goes (with_entry self.old told) result self.new }
    {
        let Some(e) = told else {
            return false;
        };
        if self.place != 1 {
            return false;
        }
        if self.outcome.len() >= ENTRIES {
            return false;
        }
        self.outcome.note(e);
        true
    }

    /// Whether the line of this thread may come next.
    fn takes_thread(&self, id: ThreadId) -> bool
        ensures { result ≡ (is_behind_header self.now.place 2 && list_all (λ m. nat_lt m.id id) self.now.threads) }
    {
        if !is_behind_header(self.place, 2) {
            return false;
        }
        are_all_before(&self.outcome, id)
    }

    #[tactic(auto, using(crate::proofs::Lines::with_thread_is))]
    fn with_thread(&mut self, told: Option<ThreadLine>) -> bool
        ensures { Goes (with_thread self.old told) result self.new }
    {
        let Some(l) = told else {
            return false;
        };
        if !self.takes_thread(l.id) {
            return false;
        }
        self.place = 2;
        self.outcome.set_thread(l);
        true
    }

    fn with_cpu_line(&mut self, told: Option<NumberedLine>) -> bool
        ensures { Goes (with_cpu_line self.old told) result self.new }
    {
        let Some(l) = told else {
            return false;
        };
        if !is_behind_header(self.place, 3) {
            return false;
        }
        if u32::from(l.cpu.0) != cpu_count(&self.outcome) {
            return false;
        }
        self.place = 3;
        self.outcome.set_cpu(l.cpu, l.line);
        true
    }

    fn with_now(&mut self, told: Option<u64>) -> bool
        ensures { Goes (with_now self.old told) result self.new }
    {
        let Some(now) = told else {
            return false;
        };
        if self.place != 3 {
            return false;
        }
        self.place = 4;
        self.outcome.set_now(now);
        true
    }

    fn with_count(&mut self, told: Option<u64>) -> bool
        ensures { Goes (with_count self.old told) result self.new }
    {
        let Some(n) = told else {
            return false;
        };
        if self.place != 4 {
            return false;
        }
        if n != u64::from(self.outcome.len()) {
            return false;
        }
        self.place = 5;
        true
    }

    /// The words of one more line, or nothing is claimed of the reading.
    fn words(&mut self, mut parts: Parts<'_>) -> bool
        ensures { Goes (after_words self.old parts.entry) result self.new }
    {
        let Some(first) = parts.next() else {
            return false;
        };
        if first == b"ule-trace".as_slice() {
            return self.with_header(version(parts));
        }
        if first == b"t".as_slice() {
            return self.with_thread(thread_line(parts));
        }
        if first == b"c".as_slice() {
            return self.with_cpu_line(cpu_line(parts));
        }
        if first == b"now".as_slice() {
            return self.with_now(time(parts));
        }
        if first == b"done".as_slice() {
            return self.with_count(count(parts));
        }
        let k = u64::from(self.outcome.len()) + 1;
        self.with_entry(entry(first, parts, k))
    }

    /// One more line.
    #[tactic(auto, unfolding(crate::specs::Reading::after_line))]
    fn line(&mut self, line: &[u8]) -> bool
        ensures { Goes (after_line self.old line.now) result self.new }
    {
        self.words(Parts::of(line, b' '))
    }

    /// Whether the number of entries stands last.
    fn is_whole(&self) -> bool
        ensures { result ≡ (self.now.place == 5) }
    {
        self.place == 5
    }

    fn into_outcome(self) -> Outcome
        ensures { IsOutcomeOf self result }
    {
        let Reading { outcome, .. } = self;
        outcome
    }
}

/// What the bytes of a trace spell: its entries and final lines. A text that is none is `Bad`, with
/// the first line, counted from 1, at which the lines so far begin no trace; where it ends too
/// early that is the line behind the last, and a last line without its newline is told itself.
#[tactic(auto, using(crate::proofs::Lines::read_more, crate::proofs::Lines::read_bad, crate::proofs::Lines::read_last, crate::proofs::Lines::read_none))]
pub fn read_trace(alloc: Global, bytes: &[u8]) -> Result<Outcome, TraceFault>
    ensures { IsReadAs result (read_bytes bytes.now) }
{
    let Ok(mut reading) = Reading::none(alloc) else {
        return Err(TraceFault::Memory);
    };
    let mut parts = Parts::of(bytes, b'\n');
    loop {
        let line = reading.lines() + 1;
        let Some(part) = parts.next() else {
            return Err(TraceFault::Bad { line });
        };
        if parts.is_at_end() {
            if part.is_empty() && reading.is_whole() {
                return Ok(reading.into_outcome());
            }
            return Err(TraceFault::Bad { line });
        }
        if !reading.line(part) {
            return Err(TraceFault::Bad { line });
        }
    }
}
