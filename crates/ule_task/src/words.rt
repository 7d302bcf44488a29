// The words of a command line, as a program is given them.
ghost use Rattle.std.specs.Prelude.{◌≡◌, ◌⊎◌, IfErr};

use crate::output::{NO_MEMORY, USAGE};
use std::alloc::Global;
use std::env::Args;
use std::io::{self, ErrorKind};

/// The exit status where the words can't be had: 5 for want of memory, and else 1.
fn status_of(fault: &io::Error) -> u8
    ensures { (result ≡ 1) ⊎ (result ≡ 5) }
{
    if fault.kind() == ErrorKind::OutOfMemory {
        NO_MEMORY
    } else {
        USAGE
    }
}

/// The words behind a program's name, in their order; or the exit status: 1 where they are no text,
/// so that they are no command, and 5 where there is no memory for them.
pub fn words_of(alloc: Global, args: io::Result<Args>) -> Result<Vec<String>, u8>
    ensures { IfErr result (λ status. (status ≡ 1) ⊎ (status ≡ 5)) }
{
    match args {
        Ok(args) => match args.skip(1).collect(alloc) {
            Ok(words) => Ok(words),
            Err(_) => Err(NO_MEMORY),
        },
        Err(fault) => Err(status_of(&fault)),
    }
}
