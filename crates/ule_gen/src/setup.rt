// Making a setup.
ghost use Rattle.std.specs.Prelude.{◌≡◌, ◌+◌, ◌≤◌, ◌<◌, [], ◌∷◌, ◌++◌, IfOk, OnOk, slice_set, slice_index_or, length};
ghost use Rattle.ule_gen.specs.Generated.{script, word_behind};
ghost use Rattle.ule_gen.specs.Made.{IsMade, form_of, groups, less_two, thread_of, threads, unborn, scripts};

use crate::draw::generated;
use std::alloc::Global;
use ule_io::Memory;
use ule_prio::{Cpu, Nice, Priority, ThreadId};
use ule_score::Settings;
use ule_topo::GroupLine;
use ule_types::{Command, Form, Groups, Scripts, Setup, Specs, ThreadSpec, Turns, Unborn};

/// The groups: all 4 CPUs, and two of two CPUs each.
fn groups(alloc: Global) -> Result<Groups, Memory>
    ensures { IfOk result (λ g. g ≡ groups) }
{
    let mut groups = Groups::empty(alloc)?;
    groups.push(GroupLine {
        id: 0,
        parent: None,
        cpus: 0b1111,
    })?;
    groups.push(GroupLine {
        id: 1,
        parent: Some(0),
        cpus: 0b0011,
    })?;
    groups.push(GroupLine {
        id: 2,
        parent: Some(0),
        cpus: 0b1100,
    })?;
    Ok(groups)
}

/// A nice value from -2 to 2.
fn nice(n: u8) -> Nice
    requires { n < 5 }
    ensures { result ≡ less_two n }
{
    Nice(n as i8 - 2)
}

/// The class of a thread, with its nice value or base priority.
fn form_of(i: u8) -> Form
    ensures { result ≡ form_of i }
{
    match i {
        0 => Form::Ithd(Priority(20)),
        1 => Form::Rt(Priority(50)),
        2 => Form::Fifo(Priority(60)),
        3..=20 => Form::Ts(nice(i % 5)),
        _ => Form::Idle(Priority(230)),
    }
}

/// Appends a thread.
fn append(threads: &mut Specs, i: u8) -> Result<(), Memory>
    requires { length threads.old < 24 }
    ensures { OnOk result (threads.new ≡ threads.old ++ thread_of i ∷ []) }
{
    threads.push(ThreadSpec {
        id: ThreadId(i),
        form: form_of(i),
        cpu: Cpu(i % 4),
        bound: false,
    })
}

/// The threads that are queued at the start.
fn threads(alloc: Global) -> Result<Specs, Memory>
    ensures { IfOk result (λ ts. ts ≡ threads) }
{
    let mut threads = Specs::empty(alloc)?;
    for i in 0..24 {
        append(&mut threads, i)?;
    }
    Ok(threads)
}

/// The threads that are unborn, one for each worker.
fn unborn(alloc: Global) -> Result<Unborn, Memory>
    ensures { IfOk result (λ ts. ts ≡ unborn) }
{
    let mut unborn = Unborn::empty(alloc)?;
    unborn.push(ThreadId(24))?;
    unborn.push(ThreadId(25))?;
    unborn.push(ThreadId(26))?;
    unborn.push(ThreadId(27))?;
    Ok(unborn)
}

/// Ends the script of a worker with a fork and a balance.
#[tactic(auto, using(crate::proofs::Written::ended))]
fn end_script(scripts: &mut Scripts, worker: u8) -> Result<(), Memory>
    requires worker { worker < 4 }
    requires count { length scripts.old ≡ 16 }
    requires few { length (slice_index_or scripts.old worker []) ≤ 1000 }
    ensures { OnOk result (scripts.new ≡ slice_set scripts.old worker (slice_index_or scripts.old worker [] ++ Command.Fork (24 + worker) ∷ Command.Balance ∷ [])) }
{
    scripts.push(worker, Command::Fork(ThreadId(24 + worker)))?;
    scripts.push(worker, Command::Balance)
}

/// Writes the script of a worker, which has none yet, from its first word on; answers the word
/// behind.
fn write_script(scripts: &mut Scripts, worker: u8, n: u32, first: u32) -> Result<u32, Memory>
    requires worker { worker < 4 }
    requires few { n ≤ 1000 }
    requires count { length scripts.old ≡ 16 }
    requires empty { slice_index_or scripts.old worker [] ≡ [] }
    ensures word { IfOk result (λ w. w ≡ word_behind n first) }
    ensures scripts { IfOk result (λ w. scripts.new ≡ slice_set scripts.old worker (script worker n first)) }
{
    let mut word = first;
    for _k in 0..n {
        let drawn = generated(word);
        scripts.push(worker, drawn.command)?;
        word = drawn.word;
    }
    end_script(scripts, worker)?;
    Ok(word)
}

/// The scripts of four workers.
fn scripts(alloc: Global, n: u32) -> Result<Scripts, Memory>
    requires { n ≤ 1000 }
    ensures { IfOk result (λ s. s ≡ scripts n) }
{
    let mut scripts = Scripts::empty(alloc)?;
    let word = write_script(&mut scripts, 0, n, n)?;
    let word = write_script(&mut scripts, 1, n, word)?;
    let word = write_script(&mut scripts, 2, n, word)?;
    write_script(&mut scripts, 3, n, word)?;
    Ok(scripts)
}

/// The setup that a number, 1..=1000, makes: 4 CPUs in two groups, 24 threads of all classes and 4
/// unborn ones, and for each worker as many drawn commands as the number says, a fork and a
/// balance.
pub fn make(alloc: Global, n: u32) -> Result<Setup, Memory>
    requires least { 1 ≤ n }
    requires most { n ≤ 1000 }
    ensures { IfOk result (λ s. IsMade n s) }
{
    let groups = groups(alloc)?;
    let threads = threads(alloc)?;
    let unborn = unborn(alloc)?;
    let scripts = scripts(alloc, n)?;
    let turns = Turns::empty(alloc)?;
    let settings = Settings {
        interact: 30,
        slice: 12,
        preempt: 80,
        steal: 2,
    };
    Ok(Setup {
        settings,
        jitter: n,
        cpus: 4,
        groups,
        threads,
        unborn,
        scripts,
        turns,
    })
}
