ghost use Rattle.std.specs.Prelude.{◌≡◌, ◌<◌, ◌≤◌, length, IfSome, true};
ghost use Rattle.ule_topo.specs.Mask.{has_cpu};
ghost use Rattle.ule_search.specs.Laws.{FindsHighest, FindsLowest};
ghost use Rattle.ule_search.specs.Search.{best_cpu, comes_first, comes_last, highest, lowest, may_be_highest, may_be_lowest, rank_down, rank_up, sums_of, word_after_search};

use crate::jitter::Jitter;
use crate::key::draw_keys;
use crate::rank::{higher, lower, ranked_cpu, ranked_down, ranked_up, sums};
use ule_prio::Cpu;
use ule_topo::{Group, GroupIx, Looks, Topology, has_cpu};

// Whether a CPU of a group that is in a mask may be the lowest.
#[tactic(auto, unfolding(crate::specs::Search::may_be_lowest))]
fn may_be_lowest(group: u16, mask: u16, looks: &Looks, above: i16, limit: u32, c: u8) -> bool
    requires there { c < length looks.now }
    requires few { c < 16 }
    ensures { result ≡ may_be_lowest group mask looks.now above limit c }
{
    let seen = looks.at(Cpu(c));
    has_cpu(group, Cpu(c))
        && has_cpu(mask, Cpu(c))
        && above < i16::from(seen.lowpri)
        && seen.load <= limit
}

// Whether a CPU of a group that is in a mask may be the highest.
#[tactic(auto, unfolding(crate::specs::Search::may_be_highest))]
fn may_be_highest(group: u16, mask: u16, looks: &Looks, at_least: u32, c: u8) -> bool
    requires there { c < length looks.now }
    requires few { c < 16 }
    ensures { result ≡ may_be_highest group mask looks.now at_least c }
{
    let seen = looks.at(Cpu(c));
    has_cpu(group, Cpu(c)) && has_cpu(mask, Cpu(c)) && at_least <= seen.load && 1 <= seen.movable
}

// The lowest CPU of a group, by the groups strictly inside it with their sums.
fn lowest_among(
    groups: &[Group],
    sums: &[i64],
    keys: &[i64],
    group: u16,
    mask: u16,
    looks: &Looks,
    above: i16,
    limit: u32,
) -> Option<Cpu>
    requires all { length keys.now ≡ length looks.now }
    requires sums { sums.now ≡ sums_of groups.now keys.now }
    ensures { result ≡ best_cpu comes_first (rank_up groups.now keys.now) (may_be_lowest group mask looks.now above limit) (length looks.now) }
{
    let mut kept = None;
    for c in 0..looks.len() {
        if may_be_lowest(group, mask, looks, above, limit, c) {
            kept = lower(kept, ranked_up(groups, sums, keys, c));
        }
    }
    ranked_cpu(kept)
}

// The highest CPU of a group, by the groups strictly inside it with their sums.
fn highest_among(
    groups: &[Group],
    sums: &[i64],
    keys: &[i64],
    group: u16,
    mask: u16,
    looks: &Looks,
    at_least: u32,
) -> Option<Cpu>
    requires all { length keys.now ≡ length looks.now }
    requires sums { sums.now ≡ sums_of groups.now keys.now }
    ensures { result ≡ best_cpu comes_last (rank_down groups.now keys.now) (may_be_highest group mask looks.now at_least) (length looks.now) }
{
    let mut kept = None;
    for c in 0..looks.len() {
        if may_be_highest(group, mask, looks, at_least, c) {
            kept = higher(kept, ranked_down(groups, sums, keys, c));
        }
    }
    ranked_cpu(kept)
}

/// The CPU of a group with the least list of path, key and number, after `cpu_search_lowest`:
/// among those of the mask whose low priority is above `above` and whose load is at most `limit`.
/// None exactly where there is none. Each CPU of the system costs a draw, whatever is found.
pub fn lowest(
    t: &Topology,
    g: GroupIx,
    looks: &Looks,
    mask: u16,
    above: i16,
    limit: u32,
    prefer: Option<Cpu>,
    j: &mut Jitter,
) -> Option<Cpu>
    requires group { g < length t.now.groups }
    requires looked { length looks.now ≡ t.now.cpus }
    ensures cpu { result ≡ lowest t.now g looks.now mask above limit prefer j.old.word }
    ensures best { FindsLowest t.now g looks.now mask above limit prefer j.old.word result }
    ensures there { IfSome result (λ c. (c < t.now.cpus) × (has_cpu mask c ≡ true)) }
    ensures word { j.new.word ≡ word_after_search looks.now j.old.word }
{
    let keys = draw_keys(looks, prefer, j);
    let keys = &keys[..usize::from(looks.len())];
    let (_, groups) = t.groups().split_at(usize::from(g.0) + 1);
    let sums = sums(groups, keys);
    let sums = &sums[..groups.len()];
    lowest_among(groups, sums, keys, t.mask(g), mask, looks, above, limit)
}

/// The CPU of a group with the greatest list of path and key, and of equals the one with the lower
/// number, after `cpu_search_highest`: among those of the mask with a load of at least `at_least`
/// and a thread that may be moved. None exactly where there is none. Each CPU of the system costs
/// a draw, whatever is found.
pub fn highest(
    t: &Topology,
    g: GroupIx,
    looks: &Looks,
    mask: u16,
    at_least: u32,
    j: &mut Jitter,
) -> Option<Cpu>
    requires group { g < length t.now.groups }
    requires looked { length looks.now ≡ t.now.cpus }
    ensures cpu { result ≡ highest t.now g looks.now mask at_least j.old.word }
    ensures best { FindsHighest t.now g looks.now mask at_least j.old.word result }
    ensures there { IfSome result (λ c. (c < t.now.cpus) × (has_cpu mask c ≡ true)) }
    ensures word { j.new.word ≡ word_after_search looks.now j.old.word }
{
    let keys = draw_keys(looks, None, j);
    let keys = &keys[..usize::from(looks.len())];
    let (_, groups) = t.groups().split_at(usize::from(g.0) + 1);
    let sums = sums(groups, keys);
    let sums = &sums[..groups.len()];
    highest_among(groups, sums, keys, t.mask(g), mask, looks, at_least)
}
