//! What a worker decided by its looks at CPUs. Each search is made once more, from the jitter word that
//! the worker's program had on, until that word is the one that the program went on with.
use crate::view::Scene;
use std::io::Result;
use ule_balance::{Masks, begin, taker_limit, told};
use ule_pick::{Card, is_near, near_above};
use ule_prio::{Cpu, Priority, ThreadId};
use ule_program::{Next, Own, Purpose, Stage};
use ule_search::{Jitter, draw_keys, highest, lowest, sums};
use ule_topo::{GroupIx, all_cpus, has_cpu, without_cpu};
use ule_types::{Event, Reply};

/// A worker's looks and groups, the jitter word of the next search, and what the last one found.
#[derive(Drop)]
struct Search<'a> {
    own: &'a Own,
    word: u32,
    found: Option<Cpu>,
}

/// What is searched for.
#[derive(Clone, Copy)]
enum Wanted {
    /// The lowest CPU of a mask, with a low priority above this and a load up to that.
    Lowest(u16, i16, u32, Cpu),
    /// The highest CPU of a mask, with a load from this on and a thread that isn't bound.
    Highest(u16, u32),
}

/// Prints what the worker's program decided at an entry, where it used what its looks saw.
pub fn tell_decision(rt: &impl Print, scene: &Scene, own: &Own) -> Result<()> {
    let (word, found) = (scene.before.word, None);
    let s = &mut Search { own, word, found };
    match &scene.before.stage {
        Stage::Gives(_, next) => tell_follow(rt, scene, s, next),
        _ => Ok(()),
    }
}

/// Prints what the worker's program decided by what follows the event.
fn tell_follow(rt: &impl Print, scene: &Scene, s: &mut Search, next: &Next) -> Result<()> {
    let (own, cpus) = (s.own, s.own.topology.cpus());
    if own.looks.len() < cpus {
        return Ok(());
    }
    match *next {
        Next::Sees(Purpose::ToLand(_, card)) => tell_pick(rt, s, &card, scene.entry.now)?,
        Next::Sees(Purpose::ToSteal) => {
            let others = without_cpu(all_cpus(cpus), own.worker);
            tell_steal(rt, s, own.topology.deepest(own.worker), others)?
        }
        Next::Sees(Purpose::ToBalance) => tell_plan(rt, s, &begin(cpus))?,
        Next::Steals(v, g, mask) => tell_steal(rt, s, g, without_cpu(mask, v))?,
        Next::Moves(plan, low, _) => tell_plan(rt, s, &plan_after(scene, &plan, low))?,
        _ => return Ok(()),
    }
    tell_next(rt, own, s.found)
}

/// A plan that was told what became of its move to a CPU.
fn plan_after(scene: &Scene, plan: &Masks, low: Cpu) -> Masks {
    let mut plan = *plan;
    let moved = matches!(scene.entry.reply, Reply::Moved(..));
    told(&mut plan, low, moved);
    plan
}

/// Prints what a decision leads to, behind a search that found this.
fn tell_next(rt: &impl Print, own: &Own, found: Option<Cpu>) -> Result<()> {
    match own.stage {
        Stage::Gives(Event::Land(ThreadId(t), c), _) => {
            let is_own = found.is_some() && found != Some(c);
            let how = if is_own { ", the worker's own" } else { "" };
            println!(rt; "  so thread {t} comes to CPU {}{how}", c.0)
        }
        Stage::Gives(Event::Move(Cpu(a), Cpu(b), _), _) => {
            println!(rt; "  so CPU {a} is to give a thread to CPU {b}")
        }
        Stage::Gives(Event::Switch(Cpu(c), _), _) => println!(rt; "  so CPU {c} switches"),
        _ => println!(rt; "  so no thread is to be moved"),
    }
}

/// Prints the searches of a choice of a CPU: near the last one where the thread ran of late, then where
/// it is better than what is there, then anywhere.
fn tell_pick(rt: &impl Print, s: &mut Search, card: &Card, now: u64) -> Result<()> {
    let (Cpu(last), Priority(priority), ran) = (card.last, card.priority, card.last_run);
    println!(rt; "  priority {priority}, last on CPU {last}, last ran at {ran}")?;
    if s.word == s.own.jitter {
        println!(rt; "  so lately, with nothing better than idle there now, it needs no search")?;
    }
    let (t, all) = (&s.own.topology, all_cpus(s.own.topology.cpus()));
    if is_near(card, now) {
        let wanted = Wanted::Lowest(all, near_above(card), u32::MAX, card.last);
        find(rt, s, t.deepest(card.last), &wanted)?;
    }
    for above in [i16::from(priority), -1] {
        let wanted = Wanted::Lowest(all, above, u32::MAX, card.last);
        find(rt, s, t.root(), &wanted)?;
    }
    Ok(())
}

/// Prints the searches of a steal: in a group of the worker's, and outward.
fn tell_steal(rt: &impl Print, s: &mut Search, from: GroupIx, mask: u16) -> Result<()> {
    let own = s.own;
    let groups = own.topology.groups();
    for at in (0..groups.len()).rev() {
        if at <= usize::from(from.0) && has_cpu(groups[at].cpus, own.worker) {
            let wanted = Wanted::Highest(mask, u32::from(own.steal));
            find(rt, s, GroupIx(at as u8), &wanted)?;
        }
    }
    Ok(())
}

/// Prints the searches of the next step of a balance: for the low CPU of the high one that is kept, and
/// for a new pair.
fn tell_plan(rt: &impl Print, s: &mut Search, plan: &Masks) -> Result<()> {
    let root = s.own.topology.root();
    if let Some(high) = plan.high {
        let wanted = taker_for(s.own, high, plan.takers);
        find(rt, s, root, &wanted)?;
    }
    find(rt, s, root, &Wanted::Highest(plan.donors, 1))?;
    if let Some(high) = s.found {
        let wanted = taker_for(s.own, high, without_cpu(plan.donors, high));
        find(rt, s, root, &wanted)?;
    }
    Ok(())
}

/// What is searched for a thread of the high CPU.
fn taker_for(own: &Own, high: Cpu, takers: u16) -> Wanted {
    let limit = if high.0 < own.looks.len() {
        taker_limit(&own.looks, high)
    } else {
        0
    };
    Wanted::Lowest(takers, -1, limit, high)
}

/// Makes a search in a group, if the program made one more, and prints what it wanted, compared and found.
fn find(rt: &impl Print, s: &mut Search, g: GroupIx, wanted: &Wanted) -> Result<()> {
    let own = s.own;
    let (t, looks, at) = (&own.topology, &own.looks, usize::from(g.0));
    let (word, jitter) = (s.word, &mut Jitter { word: s.word });
    if word == own.jitter || at >= t.groups().len() || looks.len() != t.cpus() {
        return Ok(());
    }
    s.found = match *wanted {
        Wanted::Lowest(mask, above, limit, prefer) => {
            print!(rt; "  lowest with a low priority above {above}")?;
            if limit < u32::MAX {
                print!(rt; " and a load up to {limit}")?;
            }
            tell_keys(rt, own, Some(prefer), word)?;
            lowest(t, g, looks, mask, above, limit, Some(prefer), jitter)
        }
        Wanted::Highest(mask, at_least) => {
            print!(rt; "  highest with a load from {at_least} on and a movable thread")?;
            tell_keys(rt, own, None, word)?;
            highest(t, g, looks, mask, at_least, jitter)
        }
    };
    s.word = jitter.word;
    print!(rt; " in group {}", t.groups()[at].id)?;
    match s.found {
        Some(c) => println!(rt; ": CPU {}", c.0),
        None => println!(rt; ": none"),
    }
}

/// Prints the keys that a search with this jitter word compares, and the sums of the groups.
fn tell_keys(rt: &impl Print, own: &Own, prefer: Option<Cpu>, word: u32) -> Result<()> {
    let keys = draw_keys(&own.looks, prefer, &mut Jitter { word });
    let keys = &keys[..usize::from(own.looks.len())];
    print!(rt; ", keys")?;
    for key in keys {
        print!(rt; " {key}")?;
    }
    let groups = own.topology.groups();
    print!(rt; ", sums")?;
    for sum in &sums(groups, keys)[..groups.len()] {
        print!(rt; " {sum}")?;
    }
    Ok(())
}
