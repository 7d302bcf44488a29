ghost use Rattle.std.specs.Prelude.{◌≡◌, ◌-◌, ◌<◌, ◌≤◌, length, IfSome, ℕ, true};
ghost use Rattle.std.specs.Option.{ForSome};
ghost use Rattle.ule_topo.specs.Looks.{look_at};
ghost use Rattle.ule_topo.specs.Mask.{has_cpu};
ghost use Rattle.ule_balance.specs.Plan.{IsPairOf, IsSoundPlan, low_for, offer_anew, opening_plan, plan_next, plan_told};
ghost use Rattle.ule_search.specs.Search.{word_after_search};

use ule_prio::Cpu;
use ule_search::{Jitter, highest, lowest};
use ule_topo::{Looks, Topology, all_cpus, without_cpu};

/// How far the plan of a balance has come.
#[derive(Clone, Copy)]
pub struct Masks {
    /// The CPUs that may still give a thread: bit c for CPU c.
    pub donors: u16,
    /// The CPUs that may still take one from the high CPU.
    pub takers: u16,
    /// The high CPU, which gives, if one is kept.
    pub high: Option<Cpu>,
    /// Whether nothing was tried with it yet.
    pub fresh: bool,
}

/// The plan for the first `n` CPUs, before its first pair.
pub fn begin(n: u8) -> Masks
    requires { n ≤ 16 }
    ensures plan { result ≡ opening_plan n }
    ensures sound { IsSoundPlan result }
{
    Masks {
        donors: all_cpus(n),
        takers: 0,
        high: None,
        fresh: false,
    }
}

/// The greatest load with which a CPU takes a thread from a high one: it has less.
pub fn taker_limit(looks: &Looks, high: Cpu) -> u32
    requires { high < length looks.now }
    ensures { result ≡ (look_at looks.now high).load - 1 }
{
    looks.at(high).load.saturating_sub(1)
}

// The low CPU for a high one.
fn low_for(t: &Topology, looks: &Looks, high: Cpu, takers: u16, j: &mut Jitter) -> Option<Cpu>
    requires looked { length looks.now ≡ t.now.cpus }
    requires high { high < t.now.cpus }
    ensures cpu { result ≡ low_for t.now looks.now high takers j.old.word }
    ensures there { IfSome result (λ c. (c < t.now.cpus) × (has_cpu takers c ≡ true)) }
    ensures word { j.new.word ≡ word_after_search looks.now j.old.word }
{
    let limit = taker_limit(looks, high);
    lowest(t, t.root(), looks, takers, -1, limit, Some(high), j)
}

// The next pair, where no high CPU is kept.
fn offer_anew(t: &Topology, looks: &Looks, m: &mut Masks, j: &mut Jitter) -> Option<(Cpu, Cpu)>
    requires looked { length looks.now ≡ t.now.cpus }
    requires kept { ForSome m.old.high (λ high. high < t.now.cpus) }
    ensures pair { result ≡ (offer_anew t.now looks.now m.old j.old.word).pair }
    ensures plan { m.new ≡ (offer_anew t.now looks.now m.old j.old.word).plan }
    ensures word { j.new.word ≡ (offer_anew t.now looks.now m.old j.old.word).word }
    ensures apart { IfSome result (IsPairOf t.now.cpus) }
    ensures kept { ForSome m.new.high (λ high. high < t.now.cpus) }
    ensures sound { IsSoundPlan m.old → IsSoundPlan m.new }
{
    let Some(high) = highest(t, t.root(), looks, m.donors, 1, j) else {
        return None;
    };
    m.donors = without_cpu(m.donors, high);
    m.takers = m.donors;
    m.high = Some(high);
    m.fresh = true;
    if m.takers == 0 {
        return None;
    }
    match low_for(t, looks, high, m.takers, j) {
        Some(low) => Some((high, low)),
        None => None,
    }
}

/// The next pair of a plan: the CPU that gives a thread and the one that takes it, which has less
/// load. None exactly where the plan ends.
pub fn plan_next(t: &Topology, looks: &Looks, m: &mut Masks, j: &mut Jitter) -> Option<(Cpu, Cpu)>
    requires looked { length looks.now ≡ t.now.cpus }
    requires kept { ForSome m.old.high (λ high. high < t.now.cpus) }
    ensures pair { result ≡ (plan_next t.now looks.now m.old j.old.word).pair }
    ensures plan { m.new ≡ (plan_next t.now looks.now m.old j.old.word).plan }
    ensures word { j.new.word ≡ (plan_next t.now looks.now m.old j.old.word).word }
    ensures apart { IsSoundPlan m.old → IfSome result (IsPairOf t.now.cpus) }
    ensures kept { ForSome m.new.high (λ high. high < t.now.cpus) }
    ensures sound { IsSoundPlan m.old → IsSoundPlan m.new }
{
    let Some(high) = m.high else {
        return offer_anew(t, looks, m, j);
    };
    let Some(low) = low_for(t, looks, high, m.takers, j) else {
        if m.fresh {
            return None;
        }
        m.high = None;
        return offer_anew(t, looks, m, j);
    };
    Some((high, low))
}

/// Tells a plan whether the CPU that takes got a thread.
pub fn told(m: &mut Masks, low: Cpu, moved: bool)
    ensures plan { m.new ≡ plan_told low moved m.old }
    ensures kept { (n : ℕ) → ForSome m.old.high (λ high. high < n) → ForSome m.new.high (λ high. high < n) }
    ensures sound { IsSoundPlan m.old → IsSoundPlan m.new }
{
    if moved {
        m.donors = without_cpu(m.donors, low);
        m.high = None;
    } else {
        m.takers = without_cpu(m.takers, low);
        m.fresh = false;
    }
}
