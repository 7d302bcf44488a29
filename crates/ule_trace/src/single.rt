// Single lines of a trace, for those who write one as it is made.
ghost use Rattle.ule_io.specs.Sink.{WroteWhole};
ghost use Rattle.ule_trace.specs.FinalText.{cpu_words, final_words};
ghost use Rattle.ule_trace.specs.Line.{line_text, lines_text};
ghost use Rattle.ule_trace.specs.Trace.{closing_lines, entry_words};

use crate::finals::{spell_cpu, spell_thread};
use crate::held::Held;
use crate::trace::{spell_closing, spell_entry};
use ule_io::{Sink, WriteFault, write_all};
use ule_prio::Cpu;
use ule_score::CpuLine;
use ule_types::{Entry, ThreadLine};

/// Writes the line of the entry with this number, which counts from 1. Nothing is flushed. Where a
/// write fails or takes no byte, a front of the line was taken; so of the other lines.
pub fn write_entry<K: Sink>(number: u32, e: &Entry, out: &mut K) -> Result<(), WriteFault>
    ensures { WroteWhole (K.state out.old) (K.state out.new) (line_text (entry_words number e.entry.now)) result }
{
    let mut held = Held::new();
    spell_entry(&mut held, u64::from(number), e);
    write_all(out, held.as_slice())
}

/// Writes the final line of a thread.
pub fn write_thread<K: Sink>(line: &ThreadLine, out: &mut K) -> Result<(), WriteFault>
    ensures { WroteWhole (K.state out.old) (K.state out.new) (line_text (final_words line.now)) result }
{
    let mut held = Held::new();
    spell_thread(&mut held, line);
    write_all(out, held.as_slice())
}

/// Writes the final line of a CPU.
pub fn write_cpu<K: Sink>(c: Cpu, line: &CpuLine, out: &mut K) -> Result<(), WriteFault>
    ensures { WroteWhole (K.state out.old) (K.state out.new) (line_text (cpu_words c line.now)) result }
{
    let mut held = Held::new();
    spell_cpu(&mut held, u64::from(c.0), line);
    write_all(out, held.as_slice())
}

/// Writes the last two lines: the time at the end, in hz ticks since the boot, and how many entries
/// there are.
pub fn write_closing<K: Sink>(now: u64, entries: u32, out: &mut K) -> Result<(), WriteFault>
    ensures { WroteWhole (K.state out.old) (K.state out.new) (lines_text (closing_lines now entries)) result }
{
    let mut held = Held::new();
    spell_closing(&mut held, now, u64::from(entries));
    write_all(out, held.as_slice())
}
