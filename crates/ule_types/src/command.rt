ghost use Rattle.std.specs.Prelude.{◌≡◌};
ghost use Rattle.ule_types.specs.Commands.{greatest_of, greatest_of_tick};

use ule_prio::{Cpu, Nice, Priority, ThreadId};

/// A command of a script. Worker w performs it for CPU w.
#[derive(Clone, Copy)]
pub enum Command {
    /// One stathz tick.
    Tick,
    /// So many hz ticks pass, 1..=1,000,000.
    Time(u32),
    /// The current thread gives way.
    Yield,
    /// The mark that asks for a switch is honoured.
    Resched,
    /// The current thread goes to sleep on this channel.
    Sleep(u16),
    /// The thread is woken, if it sleeps.
    Wake(ThreadId),
    /// A priority is lent to the thread.
    Lend(ThreadId, Priority),
    /// The priority lent to the thread is taken back.
    Unlend(ThreadId),
    /// The thread's nice value is set.
    Renice(ThreadId, Nice),
    /// The current thread forks this unborn one.
    Fork(ThreadId),
    /// The current thread exits.
    Exit,
    /// The CPU, which has nothing to run, looks for a thread to steal.
    Idle,
    /// Load is moved from crowded CPUs to others.
    Balance,
    /// The CPU's load, movable count and low priority are read.
    Look(Cpu),
}

/// The greatest number of items that a command of this worker has where there are so many CPUs:
/// what the command is charged against the budget of 65,536 items, whatever comes of it. A tick of
/// worker 0 may be followed by a balance where there are several CPUs.
pub fn greatest(c: &Command, worker: u8, cpus: u8) -> u32
    ensures { result ≡ greatest_of c.now worker cpus }
{
    let cpus_there = u32::from(cpus);
    match *c {
        Command::Tick => greatest_of_tick(worker, cpus),
        Command::Sleep(_) => 2,
        Command::Wake(_) => cpus_there + 2,
        Command::Fork(_) => cpus_there + 3,
        Command::Exit => 3,
        Command::Idle | Command::Balance => 2 * cpus_there,
        Command::Time(_)
        | Command::Yield
        | Command::Resched
        | Command::Lend(..)
        | Command::Unlend(_)
        | Command::Renice(..)
        | Command::Look(_) => 1,
    }
}

fn greatest_of_tick(worker: u8, cpus: u8) -> u32
    ensures { result ≡ greatest_of_tick worker cpus }
{
    if worker == 0 && cpus > 1 {
        1 + 2 * u32::from(cpus)
    } else {
        1
    }
}
