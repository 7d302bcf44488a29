ghost use Rattle.std.specs.Prelude.{◌≡◌, ◌+◌, ◌<◌, ◌≤◌, length, IfSome, max, nat_le, pos};
ghost use Rattle.std.specs.Option.{ForSome};
ghost use Rattle.ule_pick.specs.Choice.{lowest_above, near_cpu, own_or_found, pick, picked_unbound, worse_cpu};
ghost use Rattle.ule_search.specs.Search.{word_after_search};

use ule_prio::ranges::{PRI_MAX_BATCH, PRI_MIN_IDLE};
use ule_prio::{Cpu, Priority};
use ule_search::{Jitter, lowest};
use ule_topo::{GroupIx, Looks, Topology, all_cpus};

/// How long a thread's data may be in the caches near its last CPU, in hz ticks.
pub const AFFINITY: u64 = 8;

/// How long they surely are in those of the CPU itself, in hz ticks.
pub const SURE_AFFINITY: u64 = 2;

/// What the choice of a CPU asks of a thread.
#[derive(Clone, Copy)]
pub struct Card {
    pub priority: Priority,
    /// The CPU that it is bound to.
    pub bound: Option<Cpu>,
    /// The CPU that it last ran on or was queued on.
    pub last: Cpu,
    /// When it last ran, in hz ticks.
    pub last_run: u64,
}

// The lowest of all CPUs of a group, at any load, with a low priority above a bound.
fn lowest_above(
    t: &Topology,
    card: &Card,
    looks: &Looks,
    g: GroupIx,
    above: i16,
    j: &mut Jitter,
) -> Option<Cpu>
    requires group { g < length t.now.groups }
    requires looked { length looks.now ≡ t.now.cpus }
    ensures cpu { result ≡ lowest_above t.now card.now looks.now g above j.old.word }
    ensures there { IfSome result (λ c. c < t.now.cpus) }
    ensures word { j.new.word ≡ word_after_search looks.now j.old.word }
{
    let all = all_cpus(t.cpus());
    lowest(t, g, looks, all, above, u32::MAX, Some(card.last), j)
}

// The lowest of those that run something worse than the thread, or else of all.
fn worse_cpu(t: &Topology, card: &Card, looks: &Looks, j: &mut Jitter) -> Option<Cpu>
    requires { length looks.now ≡ t.now.cpus }
    ensures cpu { result ≡ (worse_cpu t.now card.now looks.now j.old.word).cpu }
    ensures there { IfSome result (λ c. c < t.now.cpus) }
    ensures word { j.new.word ≡ (worse_cpu t.now card.now looks.now j.old.word).word }
{
    match lowest_above(t, card, looks, t.root(), i16::from(card.priority.0), j) {
        Some(c) => Some(c),
        None => lowest_above(t, card, looks, t.root(), -1, j),
    }
}

/// Whether the data of a thread may be in the caches near its last CPU at this time, in hz ticks.
pub fn is_near(card: &Card, now: u64) -> bool
    ensures { result ≡ nat_le now (card.now.last_run + 8) }
{
    now.saturating_sub(card.last_run) <= AFFINITY
}

/// Above this low priority a CPU near the last one is taken: it runs nothing, or an idle thread that
/// is worse than the thread.
pub fn near_above(card: &Card) -> i16
    ensures { result ≡ pos (max card.now.priority 223) }
{
    i16::from(card.priority.0.max(PRI_MAX_BATCH))
}

// The lowest of those near the last CPU that run nothing or an idle thread, or else one of all.
fn near_cpu(t: &Topology, card: &Card, looks: &Looks, now: u64, j: &mut Jitter) -> Option<Cpu>
    requires looked { length looks.now ≡ t.now.cpus }
    requires ran { card.now.last_run ≤ now }
    ensures cpu { result ≡ (near_cpu t.now card.now looks.now now j.old.word).cpu }
    ensures there { IfSome result (λ c. c < t.now.cpus) }
    ensures word { j.new.word ≡ (near_cpu t.now card.now looks.now now j.old.word).word }
{
    if !is_near(card, now) {
        return worse_cpu(t, card, looks, j);
    }
    let near = t.deepest(card.last);
    match lowest_above(t, card, looks, near, near_above(card), j) {
        Some(c) => Some(c),
        None => worse_cpu(t, card, looks, j),
    }
}

// The worker's own CPU where it is no worse than the one that was found.
fn own_or_found(card: &Card, looks: &Looks, own: Cpu, found: Cpu) -> Cpu
    requires own { own < length looks.now }
    requires found { found < length looks.now }
    ensures cpu { result ≡ own_or_found card.now looks.now own found }
    ensures there { result < length looks.now }
{
    let here = looks.at(own);
    let there = looks.at(found);
    if card.priority.0 < here.lowpri
        && there.lowpri < PRI_MIN_IDLE
        && u64::from(here.load) <= u64::from(there.load) + 1
    {
        own
    } else {
        found
    }
}

// The choice on several CPUs for a thread that isn't bound.
fn picked_unbound(
    t: &Topology,
    card: &Card,
    looks: &Looks,
    own: Cpu,
    now: u64,
    j: &mut Jitter,
) -> Cpu
    requires looked { length looks.now ≡ t.now.cpus }
    requires own { own < t.now.cpus }
    requires last { card.now.last < t.now.cpus }
    requires ran { card.now.last_run ≤ now }
    ensures cpu { result ≡ (picked_unbound t.now card.now looks.now own now j.old.word).cpu }
    ensures there { result < t.now.cpus }
    ensures word { j.new.word ≡ (picked_unbound t.now card.now looks.now own now j.old.word).word }
{
    if looks.at(card.last).lowpri >= PRI_MIN_IDLE && now - card.last_run <= SURE_AFFINITY {
        return card.last;
    }
    match near_cpu(t, card, looks, now, j) {
        Some(found) => own_or_found(card, looks, own, found),
        None => card.last,
    }
}

/// The CPU for a thread that wants to run, by what looks at all CPUs saw, after `sched_pickcpu`:
/// its own if it is bound. `own`: the CPU of the worker that asks; `now`: the time, in hz ticks.
pub fn pick(t: &Topology, card: &Card, looks: &Looks, own: Cpu, now: u64, j: &mut Jitter) -> Cpu
    requires looked { length looks.now ≡ t.now.cpus }
    requires bound { ForSome card.now.bound (λ c. c < t.now.cpus) }
    requires own { own < t.now.cpus }
    requires last { card.now.last < t.now.cpus }
    requires ran { card.now.last_run ≤ now }
    ensures cpu { result ≡ (pick t.now card.now looks.now own now j.old.word).cpu }
    ensures there { result < t.now.cpus }
    ensures word { j.new.word ≡ (pick t.now card.now looks.now own now j.old.word).word }
{
    if let Some(c) = card.bound {
        return c;
    }
    if t.cpus() == 1 {
        return Cpu(0);
    }
    picked_unbound(t, card, looks, own, now, j)
}
