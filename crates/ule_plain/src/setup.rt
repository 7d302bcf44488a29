ghost use Rattle.ule_io.specs.Sink.{WroteWhole};
ghost use Rattle.ule_plain.specs.Text.{plain_text};

use crate::line::spell_opening;
use crate::section::{write_groups, write_scripts, write_threads, write_unborn, write_weave};
use ule_io::{Sink, WriteFault, write_all};
use ule_trace::held::Held;
use ule_types::Setup;

/// Writes the plain text of a setup: all four settings, the jitter and the number of CPUs, then
/// the groups as given, the threads, the unborn ones, a script for each CPU's worker, the turns
/// in lines of 64, and `end`. It goes out in pieces of at most 8,192 bytes, and nothing is flushed.
/// Where a write fails or takes no byte, a front of the text was taken.
pub fn write_setup<K: Sink>(s: &Setup, out: &mut K) -> Result<(), WriteFault>
    ensures { WroteWhole (K.state out.old) (K.state out.new) (plain_text s.now) result }
{
    let mut held = Held::new();
    spell_opening(&mut held, &s.settings, s.jitter, s.cpus);
    write_groups(&mut held, s.groups.as_slice(), out)?;
    write_threads(&mut held, s.threads.as_slice(), out)?;
    write_unborn(&mut held, s.unborn.as_slice(), out)?;
    write_scripts(&mut held, s.cpus, &s.scripts, out)?;
    write_weave(&mut held, s.turns.as_slice(), out)?;
    held.make_room(out)?;
    held.text("end\n");
    write_all(out, held.as_slice())
}
