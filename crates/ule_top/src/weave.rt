// The task `weave`: the turns of a scenario are made one after another, and what each did and left is
// written.
ghost use Rattle.ule_task.specs.Input.{Gave};
ghost use Rattle.ule_top.specs.Weave.{Weaves};
ghost use Rattle.ule_weave.specs.WeaveText.{weave_text};

use std::alloc::Global;
use ule_io::{Sink, Source};
use ule_task::{DONE, NO_MEMORY, finish, read_setup, tell};
use ule_types::Setup;
use ule_weave::Weave;

/// Reads a scenario, makes its turns and writes the weave text.
pub fn weave<S: Source, K: Sink>(alloc: Global, src: &mut S, out: &mut K) -> u8
    ensures { Weaves (S.state src.old) (S.state src.new) (K.state out.old) (K.state out.new) result }
{
    match read_setup(alloc, src) {
        Ok(setup) => weave_setup(alloc, &setup, out),
        Err(why) => tell(why, out),
    }
}

/// Makes the turns of a setup and writes the weave text.
fn weave_setup<K: Sink>(alloc: Global, setup: &Setup, out: &mut K) -> u8
    ensures { Gave (record { status = 0; text = weave_text setup.now }) (K.state out.old) (K.state out.new) result }
{
    match Weave::start(alloc, setup) {
        Ok(play) => {
            let written = play.write(setup, out);
            finish(written, DONE, out)
        }
        Err(_) => NO_MEMORY,
    }
}
