//! What is told of the end of a play: the lines of what is under a lock, and a thread's word.
ghost use Rattle.std.specs.Prelude.{◌≡◌, ◌==◌, ◌≤◌, find, length, nat_lt, true, unwrap_or};
ghost use Rattle.ule_seq.specs.Notes.{with_cpu_under, with_lines_under, with_word};
ghost use Rattle.ule_seq.specs.Outcomes.{queue_line};

use crate::lock::Guarded;
use ule_prio::{Cpu, LockId, ThreadId};
use ule_score::CpuLine;
use ule_types::{Outcome, ThreadLine};

/// The line of a CPU that there isn't.
const BLANK_LINE: CpuLine = CpuLine {
    idx: 0,
    ridx: 0,
    resched: false,
    slice_end: false,
    switches: 0,
    old_switches: 0,
    balance: 0,
};

/// Sets the lines of those of the first so many threads that are under a lock.
#[tactic(auto, using(crate::proofs::NoteSteps::none_before, crate::proofs::NoteSteps::line_more, crate::proofs::NoteSteps::no_line_more))]
pub(crate) fn set_lines(v: &Guarded, count: u16, out: &mut Outcome)
    requires { count ≤ 256 }
    ensures { out.new ≡ record out.old { threads = with_lines_under v.now count out.old.threads } }
{
    for t in 0..count {
        if let Some(line) = v.line(ThreadId(t as u8)) {
            out.set_thread(line);
        }
    }
}

/// Sets the line of a lock's CPU where there is one of its number among so many.
pub(crate) fn set_cpu_line(v: &Guarded, count: u8, l: LockId, out: &mut Outcome)
    requires few { count ≤ 16 }
    requires next { nat_lt l count ≡ true → l ≤ length out.old.cpus }
    ensures { out.new ≡ record out.old { cpus = with_cpu_under count l v.now out.old.cpus } }
{
    if l.0 < count {
        out.set_cpu(Cpu(l.0), cpu_line(v));
    }
}

/// The line of the CPU that a lock guards, or a blank one.
fn cpu_line(v: &Guarded) -> CpuLine
    ensures { result ≡ unwrap_or (queue_line v.now) BLANK_LINE }
{
    match v.cpu_line() {
        Some(line) => line,
        None => BLANK_LINE,
    }
}

/// Sets the word in a thread's line, if there is one.
pub(crate) fn set_word(out: &mut Outcome, t: ThreadId, word: Option<LockId>)
    ensures { out.new ≡ with_word out.old t word }
{
    if let Some(line) = line_of(out.threads(), t) {
        out.set_thread(ThreadLine { word, ..line });
    }
}

/// The line of a thread among these, if it has one.
fn line_of(lines: &[ThreadLine], t: ThreadId) -> Option<ThreadLine>
    ensures { result ≡ find (λ line. line.id == t) lines.now }
{
    for line in lines {
        if line.id == t {
            return Some(*line);
        }
    }
    None
}
