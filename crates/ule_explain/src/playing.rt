//! The play of a setup, a turn after another, told as it goes.
ghost use Rattle.ule_seq.specs.Playing.{IsPlaying};

use crate::Fault;
use crate::choice::tell_entry;
use crate::records::tell_changes;
use crate::search::tell_decision;
use crate::view::{Scene, View};
use std::alloc::Global;
use ule_io::MemSink;
use ule_prio::Cpu;
use ule_seq::{GREATEST_ROUNDS, Player, Turn};
use ule_trace::{write_closing, write_cpu, write_entry, write_thread};
use ule_types::{Entry, Setup};

/// No line of a trace is longer, in bytes.
const LONGEST_LINE: usize = 600;

/// The final lines of all threads and CPUs, and the last two, in bytes at most.
const LONGEST_END: usize = 274 * LONGEST_LINE;

/// Plays a setup, and prints its trace with what each entry came from.
pub fn explain(rt: &impl Print, alloc: Global, setup: &Setup) -> Result<(), Fault> {
    println!(rt; "ule-trace 1")?;
    let mut player = Player::start(alloc, setup)?;
    for _round in 0..GREATEST_ROUNDS {
        if !round(rt, alloc, setup, &mut player)? {
            break;
        }
    }
    tell_end(rt, alloc, &player)
}

/// Plays a round: each worker has one turn. Says whether any had a further item.
fn round(rt: &impl Print, alloc: Global, setup: &Setup, player: &mut Player) -> Result<bool, Fault>
    requires { IsPlaying setup.now player.old }
    ensures { IsPlaying setup.now player.new }
{
    let mut moved = false;
    for worker in 0..setup.cpus {
        let before = View::of(alloc, player, worker)?;
        let turn = player.turn(setup, worker);
        if !turn.is_finished() {
            moved = true;
        }
        match turn {
            Turn::Made(entry) => tell_made(rt, alloc, setup, &before, player, &entry)?,
            Turn::Lost { thread, holder: w } => {
                let t = thread.0;
                println!(rt; "  worker {worker} loses a turn: worker {w} has thread {t} in hand")?
            }
            Turn::Advanced(k) => println!(rt; "  worker {worker} lets {k} hz ticks pass")?,
            Turn::Finished => {}
        }
    }
    Ok(moved)
}

/// Prints an entry that was made, and below it what it came from.
fn tell_made(
    rt: &impl Print,
    alloc: Global,
    setup: &Setup,
    before: &View,
    player: &Player,
    entry: &Entry,
) -> Result<(), Fault> {
    let mut line = MemSink::start(alloc, LONGEST_LINE, LONGEST_LINE, &[])?;
    write_entry(player.entries(), entry, &mut line)?;
    rt.write_all(line.bytes())?;
    let after = View::of(alloc, player, entry.worker)?;
    let scene = Scene {
        settings: setup.settings,
        entry: *entry,
        before,
        after: &after,
        world: player.world(),
    };
    tell_entry(rt, &scene)?;
    tell_changes(rt, &scene)?;
    if let Some(program) = player.program(entry.worker) {
        tell_decision(rt, &scene, program.own())?;
    }
    Ok(())
}

/// Prints the final lines.
fn tell_end(rt: &impl Print, alloc: Global, player: &Player) -> Result<(), Fault> {
    let end = View::of(alloc, player, 0)?;
    let mut lines = MemSink::start(alloc, LONGEST_END, LONGEST_END, &[])?;
    for line in end.lines.threads() {
        write_thread(line, &mut lines)?;
    }
    for (c, line) in end.lines.cpus().iter().enumerate() {
        write_cpu(Cpu(c as u8), line, &mut lines)?;
    }
    write_closing(player.now(), player.entries(), &mut lines)?;
    rt.write_all(lines.bytes())?;
    Ok(())
}
