ghost use Rattle.std.specs.Prelude.{◌≡◌, ◌+◌, ◌≤◌, ◌*◌, ◌<◌, [], ◌∷◌, ◌++◌, length, map, take};
ghost use Rattle.ule_io.specs.Sink.{SinkState};
ghost use Rattle.ule_plain.specs.Commands.{command_words};
ghost use Rattle.ule_plain.specs.Lines.{group_words, thread_words, unborn_words, turns_of_line};
ghost use Rattle.ule_plain.specs.Sent.{HasSent};
ghost use Rattle.ule_plain.specs.Text.{script_lines, scripts_lines, turn_lines, weave_lines};
ghost use Rattle.ule_trace.specs.Line.{lines_text};

use crate::command::spell_command;
use crate::line::{spell_group, spell_script, spell_thread, spell_turns, spell_unborn};
use ule_io::{Sink, WriteFault};
use ule_prio::ThreadId;
use ule_topo::GroupLine;
use ule_trace::held::Held;
use ule_types::{Command, Scripts, ThreadSpec};

/// How many turns stand in a line.
const TURNS: usize = 64;

/// Writes the lines of the groups.
pub fn write_groups<K: Sink>(
    held: &mut Held,
    groups: &[GroupLine],
    out: &mut K,
) -> Result<(), WriteFault>
    ensures { HasSent (K.state out.old) (K.state out.new) held.old (lines_text (map group_words groups.now)) held.new result }
{
    for g in groups {
        held.make_room(out)?;
        spell_group(held, g);
    }
    Ok(())
}

/// Writes the lines of the threads that are queued at the start.
pub fn write_threads<K: Sink>(
    held: &mut Held,
    threads: &[ThreadSpec],
    out: &mut K,
) -> Result<(), WriteFault>
    ensures { HasSent (K.state out.old) (K.state out.new) held.old (lines_text (map thread_words threads.now)) held.new result }
{
    for t in threads {
        held.make_room(out)?;
        spell_thread(held, t);
    }
    Ok(())
}

/// Writes the lines of the threads that are unborn at the start.
pub fn write_unborn<K: Sink>(
    held: &mut Held,
    unborn: &[ThreadId],
    out: &mut K,
) -> Result<(), WriteFault>
    ensures { HasSent (K.state out.old) (K.state out.new) held.old (lines_text (map unborn_words unborn.now)) held.new result }
{
    for t in unborn {
        held.make_room(out)?;
        spell_unborn(held, *t);
    }
    Ok(())
}

// Writes the lines of commands.
fn write_commands<K: Sink>(
    held: &mut Held,
    commands: &[Command],
    out: &mut K,
) -> Result<(), WriteFault>
    ensures { HasSent (K.state out.old) (K.state out.new) held.old (lines_text (map command_words commands.now)) held.new result }
{
    for c in commands {
        held.make_room(out)?;
        spell_command(held, c);
    }
    Ok(())
}

// Writes the lines of a worker's script.
fn write_script<K: Sink>(
    held: &mut Held,
    worker: u8,
    commands: &[Command],
    out: &mut K,
) -> Result<(), WriteFault>
    ensures { HasSent (K.state out.old) (K.state out.new) held.old (lines_text (script_lines worker commands.now)) held.new result }
{
    held.make_room(out)?;
    spell_script(held, worker);
    write_commands(held, commands, out)
}

/// Writes the lines of the scripts of so many workers.
pub fn write_scripts<K: Sink>(
    held: &mut Held,
    cpus: u8,
    scripts: &Scripts,
    out: &mut K,
) -> Result<(), WriteFault>
    requires within { cpus ≤ 16 }
    requires workers { length scripts.now ≡ 16 }
    ensures { HasSent (K.state out.old) (K.state out.new) held.old (lines_text (scripts_lines 0 (take cpus scripts.now))) held.new result }
{
    for worker in 0..cpus {
        write_script(held, worker, scripts.commands_of(worker), out)?;
    }
    Ok(())
}

// The turns of a line by its place.
fn turns_of_line(turns: &[u8], k: usize) -> &[u8]
    requires { 64 * k ≤ length turns.now }
    ensures { result.now ≡ turns_of_line turns.now k }
{
    let behind = turns.split_at(TURNS * k).1;
    if behind.len() < TURNS {
        return behind;
    }
    behind.split_at(TURNS).0
}

// Writes the lines of turns.
fn write_turns<K: Sink>(held: &mut Held, turns: &[u8], out: &mut K) -> Result<(), WriteFault>
    requires { length turns.now ≤ 4096 }
    ensures { HasSent (K.state out.old) (K.state out.new) held.old (lines_text (turn_lines turns.now)) held.new result }
{
    for k in 0..(turns.len() + 63) / TURNS {
        held.make_room(out)?;
        spell_turns(held, turns_of_line(turns, k));
    }
    Ok(())
}

/// Writes the section of turns, where there are turns.
pub fn write_weave<K: Sink>(held: &mut Held, turns: &[u8], out: &mut K) -> Result<(), WriteFault>
    requires { length turns.now ≤ 4096 }
    ensures { HasSent (K.state out.old) (K.state out.new) held.old (lines_text (weave_lines turns.now)) held.new result }
{
    if turns.is_empty() {
        return Ok(());
    }
    held.make_room(out)?;
    held.text("weave\n");
    write_turns(held, turns, out)
}
