// The exit statuses, and the end of a text.
ghost use Rattle.std.specs.Prelude.{◌≢◌};
ghost use Rattle.ule_task.specs.Writing.{Finishes};

use ule_io::{Sink, WriteFault};

/// The task was performed.
pub const DONE: u8 = 0;

/// The words name no task.
pub const USAGE: u8 = 1;

/// Reading failed.
pub const READ_FAULT: u8 = 2;

/// The input spells no setup, or begins with no scenario.
pub const REFUSED: u8 = 3;

/// Writing failed.
pub const WRITE_FAULT: u8 = 4;

/// There was no memory.
pub const NO_MEMORY: u8 = 5;

/// The text behind the scenario is not the trace of a whole legal history.
pub const ILLEGAL: u8 = 6;

/// Flushes a text that was written whole, and gives `good` if that is done too.
pub fn finish<K: Sink>(written: Result<(), WriteFault>, good: u8, out: &mut K) -> u8
    requires { good ≢ WRITE_FAULT }
    ensures { Finishes (K.state out.old) (K.state out.new) written good result }
{
    if written.is_err() {
        return WRITE_FAULT;
    }
    match out.flush() {
        Ok(()) => good,
        Err(_) => WRITE_FAULT,
    }
}
