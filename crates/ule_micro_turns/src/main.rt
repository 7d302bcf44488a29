//! Plays turns of the step model over the shifting thread, and prints how many it played and how
//! many entries they made. `bench/turns` takes the time of it. With no words it first prints each
//! turn of the listed plays.
#![tactic(auto)]

ghost use Rattle.std.specs.Prelude.{◌≤◌, IfSome};

mod playing;
mod rows;

use playing::{MOST, entries_of};
use rows::print_rows;
use std::env::{self, Args};
use std::io;
use std::process::ExitCode;

/// No memory was left, or the line couldn't be printed.
const FAILED: u8 = 1;

/// The words aren't one or two numbers up to 65,536.
const USAGE: u8 = 2;

/// How many turns are played where no word says so. The workers then start anew once.
const TURNS: u32 = 20_000;

/// A number up to 65,536.
fn number_of(word: &str) -> Option<u32>
    ensures { IfSome result (λ n. n ≤ MOST) }
{
    match word.parse::<u32>() {
        Ok(number) if number <= MOST => Some(number),
        _ => None,
    }
}

/// How many turns are asked for, and how often to play them: 20,000 and once, where no word says so.
fn asked(args: Args) -> Option<(u32, u32)>
    ensures { IfSome result (λ n. (n.0 ≤ MOST) × (n.1 ≤ MOST)) }
{
    let mut words = args.skip(1);
    let Some(word) = words.next() else {
        return Some((TURNS, 1));
    };
    let turns = number_of(word.as_str())?;
    let Some(word) = words.next() else {
        return Some((turns, 1));
    };
    let times = number_of(word.as_str())?;
    match words.next() {
        None => Some((turns, times)),
        Some(_) => None,
    }
}

fn main(rt: HostRuntime) -> ExitCode {
    let Ok(args) = env::args(&rt) else {
        return ExitCode::from(FAILED);
    };
    if args.len() < 2 && print_rows(&rt, rt.alloc()).is_err() {
        return ExitCode::from(FAILED);
    }
    let Some((turns, times)) = asked(args) else {
        let _ = eprintln!(rt;
            "usage: ule_micro_turns [TURNS [TIMES]]     each a number up to 65536"
        );
        return ExitCode::from(USAGE);
    };
    let Ok(entries) = entries_of(rt.alloc(), turns, times) else {
        return ExitCode::from(FAILED);
    };
    let all_turns = u64::from(turns) * u64::from(times);
    match println!(rt; "{all_turns} turns, {entries} entries") {
        Ok(()) => ExitCode::SUCCESS,
        Err(_) => ExitCode::from(FAILED),
    }
}
