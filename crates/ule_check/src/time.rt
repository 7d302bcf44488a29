ghost use Rattle.std.specs.Prelude.{◌≡◌, ◌+◌, ◌^◌, ◌<◌};
ghost use Rattle.ule_model.specs.Ends.{end_time};
ghost use Rattle.ule_model.specs.Legal.{amount_in, amount_of};
ghost use Rattle.ule_seq.specs.Playing.{script_of};

use ule_seq::STARTING_TIME;
use ule_types::{Command, Setup};

/// How many workers have a list.
const WORKERS: u8 = 16;

/// The time that a command adds, in hz ticks.
fn amount_of(c: &Command) -> u64
    ensures { result ≡ amount_of c.now }
{
    match *c {
        Command::Time(ticks) => u64::from(ticks),
        Command::Tick
        | Command::Yield
        | Command::Resched
        | Command::Sleep(_)
        | Command::Wake(_)
        | Command::Lend(..)
        | Command::Unlend(_)
        | Command::Renice(..)
        | Command::Fork(_)
        | Command::Exit
        | Command::Idle
        | Command::Balance
        | Command::Look(_) => 0,
    }
}

/// The time that a worker's list adds, in hz ticks.
fn amount_in(s: &Setup, worker: u8) -> u64
    requires worker { worker < 16 }
    requires fits { amount_in (script_of s.now worker) < 2 ^ 64 }
    ensures { result ≡ amount_in (script_of s.now worker) }
{
    let mut amount = 0;
    for k in 0..s.scripts.len(worker) {
        amount += amount_of(s.scripts.at(worker, k));
    }
    amount
}

/// The time at the end of a whole history, in hz ticks since the boot.
pub(crate) fn end_of(s: &Setup) -> u64
    ensures { result ≡ end_time s.now.scripts }
{
    let mut end = STARTING_TIME;
    for worker in 0..WORKERS {
        end += amount_in(s, worker);
    }
    end
}
