ghost use Rattle.std.specs.Prelude.{◌≡◌, ◌<◌, ◌≤◌, ◌*◌, ◌^◌, ℕ, ℤ, length, take, pos, negsuc, ◌≤ℤ◌};
ghost use Rattle.ule_search.specs.Bounds.{AreKeys};
ghost use Rattle.ule_search.specs.Ranked.{better_ranked, ranked_cpu, with_rank};
ghost use Rattle.ule_search.specs.Search.{comes_first, comes_last, path_through, rank_by, rank_down, rank_up, sum_of, sums_of};

use ule_prio::Cpu;
use ule_topo::{Group, has_cpu};

/// A CPU with the list by which it is compared: its path, its key, and a last number.
#[derive(Clone, Copy)]
pub struct Ranked {
    pub cpu: Cpu,
    pub rank: [i64; 5],
}

// The sum of the keys of the CPUs of a mask.
fn sum(keys: &[i64], mask: u16) -> i64
    requires few { length keys.now ≤ 16 }
    requires fit { AreKeys keys.now }
    ensures { result ≡ sum_of keys.now mask }
{
    let mut total = 0;
    for c in 0..keys.len() {
        if has_cpu(mask, Cpu(c as u8)) {
            total += keys[c];
        }
    }
    total
}

/// The sums of the keys of the CPUs of each group, in the first places.
pub fn sums(groups: &[Group], keys: &[i64]) -> [i64; 15]
    requires groups { length groups.now ≤ 15 }
    requires few { length keys.now ≤ 16 }
    requires fit { AreKeys keys.now }
    ensures { take (length groups.now) result ≡ sums_of groups.now keys.now }
{
    let mut sums = [0; 15];
    for i in 0..groups.len() {
        sums[i] = sum(keys, groups[i].cpus);
    }
    sums
}

// The path of a CPU through groups, from the inside out.
fn path(groups: &[Group], sums: &[i64], keys: &[i64], c: u8) -> [i64; 3]
    requires there { c < length keys.now }
    requires few { length keys.now ≤ 16 }
    requires sums { sums.now ≡ sums_of groups.now keys.now }
    ensures { result ≡ path_through groups.now keys.now c }
{
    let key = keys[usize::from(c)];
    let mut path = [key, key, key];
    for i in (0..groups.len()).rev() {
        if has_cpu(groups[i].cpus, Cpu(c)) {
            path = [sums[i], path[0], path[1]];
        }
    }
    path
}

// A CPU with its list, whose last number is given.
fn ranked_by(groups: &[Group], sums: &[i64], keys: &[i64], number: i64, c: u8) -> Ranked
    requires there { c < length keys.now }
    requires few { length keys.now ≤ 16 }
    requires sums { sums.now ≡ sums_of groups.now keys.now }
    ensures { result ≡ with_rank (rank_by number groups.now keys.now) c }
{
    let p = path(groups, sums, keys, c);
    Ranked {
        cpu: Cpu(c),
        rank: [p[0], p[1], p[2], keys[usize::from(c)], number],
    }
}

/// A CPU by path, key and number.
pub(crate) fn ranked_up(groups: &[Group], sums: &[i64], keys: &[i64], c: u8) -> Ranked
    requires there { c < length keys.now }
    requires few { length keys.now ≤ 16 }
    requires sums { sums.now ≡ sums_of groups.now keys.now }
    ensures { result ≡ with_rank (rank_up groups.now keys.now) c }
{
    ranked_by(groups, sums, keys, i64::from(c), c)
}

/// A CPU by path, key and its number counted down.
pub(crate) fn ranked_down(groups: &[Group], sums: &[i64], keys: &[i64], c: u8) -> Ranked
    requires there { c < length keys.now }
    requires few { length keys.now ≤ 16 }
    requires sums { sums.now ≡ sums_of groups.now keys.now }
    ensures { result ≡ with_rank (rank_down groups.now keys.now) c }
{
    ranked_by(groups, sums, keys, -i64::from(c), c)
}

// Whether one list comes before another.
fn comes_first(one: &[i64; 5], other: &[i64; 5]) -> bool
    ensures { result ≡ comes_first one.now other.now }
{
    for i in 0..5 {
        if one[i] != other[i] {
            return one[i] < other[i];
        }
    }
    false
}

/// The lower of a CPU that is kept, if one is, and a next one.
pub(crate) fn lower(kept: Option<Ranked>, next: Ranked) -> Option<Ranked>
    ensures { result ≡ better_ranked comes_first kept next }
{
    if let Some(r) = &kept {
        if !comes_first(&next.rank, &r.rank) {
            return kept;
        }
    }
    Some(next)
}

/// The higher of a CPU that is kept, if one is, and a next one.
pub(crate) fn higher(kept: Option<Ranked>, next: Ranked) -> Option<Ranked>
    ensures { result ≡ better_ranked comes_last kept next }
{
    if let Some(r) = &kept {
        if !comes_first(&r.rank, &next.rank) {
            return kept;
        }
    }
    Some(next)
}

/// The CPU that is kept, if one is.
pub(crate) fn ranked_cpu(kept: Option<Ranked>) -> Option<Cpu>
    ensures { result ≡ ranked_cpu kept }
{
    match kept {
        Some(r) => Some(r.cpu),
        None => None,
    }
}
