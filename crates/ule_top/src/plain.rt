// The task `text`: the plain text of the setup of a number.
ghost use Rattle.std.specs.Prelude.{◌≤◌};
ghost use Rattle.ule_plain.specs.Text.{plain_text};
ghost use Rattle.ule_top.specs.Making.{WroteMade};

use std::alloc::Global;
use ule_gen::make;
use ule_io::Sink;
use ule_plain::write_setup;
use ule_task::{DONE, NO_MEMORY, finish};

/// Writes the plain text of the setup of a number, 1..=1000.
pub fn spell_made<K: Sink>(alloc: Global, n: u32, out: &mut K) -> u8
    requires least { 1 ≤ n }
    requires most { n ≤ 1000 }
    ensures { WroteMade n plain_text (K.state out.old) (K.state out.new) result }
{
    match make(alloc, n) {
        Ok(setup) => {
            let written = write_setup(&setup, out);
            finish(written, DONE, out)
        }
        Err(_) => NO_MEMORY,
    }
}
