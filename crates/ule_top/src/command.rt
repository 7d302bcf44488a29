ghost use Rattle.std.specs.Prelude.{map, string_bytes};
ghost use Rattle.ule_top.specs.Answers.{Answers};

use crate::check::check;
use crate::plain::spell_made;
use crate::rounds::run;
use crate::summary::summarize;
use crate::task::{Task, task_of};
use crate::weave::weave;
use std::alloc::Global;
use ule_io::{Sink, Source};
use ule_task::USAGE;

/// Performs the task that the words name, from the source to the sink, and gives the exit status.
///
/// `run` reads a scenario to its end, plays it in rounds and writes the trace. `weave` reads one,
/// makes its turns one after another, and writes what each did and left. `check` reads a scenario
/// and, right behind its line `end`, a trace, and writes the verdict on the trace. `gen N`, with N of
/// 1..=1000, reads nothing, plays the setup that `ule_gen` makes of N, and writes one line of counts;
/// `text N` writes that setup as a scenario.
///
/// 0: done, and the text was written and flushed. 1: the words name no task, and nothing is read or
/// written. 2: a read failed, within the first 1,048,576 bytes, of `check` 16,777,216, and nothing is
/// written. 3: the input begins with no scenario or has more bytes than that, and the line
/// `refused LINE REASON DETAIL` was written and flushed, which tells the first offence. 4: a write or
/// a flush failed or a write took no byte, and a front of the text of 0, 3 or 6 was taken, after as
/// much was read as there. 5: memory ran out, and nothing is written. 6, of `check` alone: the text
/// behind the scenario is not the trace of a whole legal history of it, and the line that tells why
/// was written and flushed: `bad LINE` or `illegal K` with the fault.
pub fn top<S: Source, K: Sink>(alloc: Global, words: &[String], src: &mut S, out: &mut K) -> u8
    ensures { Answers (map string_bytes words.now) (S.state src.old) (S.state src.new)
        (K.state out.old) (K.state out.new) result }
{
    match task_of(words) {
        None => USAGE,
        Some(Task::Run) => run(alloc, src, out),
        Some(Task::Weave) => weave(alloc, src, out),
        Some(Task::Check) => check(alloc, src, out),
        Some(Task::Gen(n)) => summarize(alloc, n, out),
        Some(Task::Text(n)) => spell_made(alloc, n, out),
    }
}
