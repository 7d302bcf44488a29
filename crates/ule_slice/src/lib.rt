//! How long a thread may run before another of its priority has its turn: its time slice.
//!
//! ULE, FreeBSD's thread scheduler, shortens the slice as more threads share the CPU, so that
//! each gets its turn sooner. After `tdq_slice` of FreeBSD's `sched_ule.c`. Slices are
//! counted in stathz ticks, which are the calls of `sched_clock`.
#![tactic(auto)]

ghost use Rattle.std.specs.Prelude.{◌≡◌, ◌≤◌};
ghost use Rattle.ule_slice.specs.Slice.{min_slice_of, slice_of, SliceIsBounded};

/// How many times shorter than the full slice the least one is; the same number as FreeBSD's.
pub const SCHED_SLICE_MIN_DIVISOR: u16 = 6;

/// The least slice in stathz ticks, where the full slice is `full`, from 6 to 1000 stathz ticks:
/// a sixth of it, so at least 1.
///
/// After FreeBSD's `sched_slice_min`, which is kept in a variable there and computed here.
#[tactic(auto, unfolding(crate::specs::Slice::min_slice_of))]
pub fn min_slice(full: u16) -> u16
    requires least { 6 ≤ full }
    requires greatest { full ≤ 1000 }
    ensures number { result ≡ min_slice_of full }
    ensures positive { 1 ≤ result }
{
    full / SCHED_SLICE_MIN_DIVISOR
}

/// The slice in stathz ticks of a thread on a CPU with this `load`, where the full slice is
/// `full`, from 6 to 1000 stathz ticks.
///
/// The load is the number of threads that run or are queued on the CPU, the thread itself too. For
/// up to two of them it is the full slice, for three to six the full slice divided by the number
/// of the others, and for more the least slice.
///
/// After `tdq_slice`, which reads the load from the CPU's queue, where it counts no thread that is
/// exempt from load; here every thread counts.
#[tactic(auto, unfolding(crate::specs::Slice::min_slice_of, crate::specs::Slice::slice_of))]
pub fn slice(load: u32, full: u16) -> u16
    requires least { 6 ≤ full }
    requires greatest { full ≤ 1000 }
    ensures number { result ≡ slice_of load full }
    ensures at_least { min_slice_of full ≤ result }
    ensures at_most { result ≤ full }
{
    let others = load.saturating_sub(1);
    if others >= u32::from(SCHED_SLICE_MIN_DIVISOR) {
        min_slice(full)
    } else if others <= 1 {
        full
    } else {
        full / others as u16
    }
}

/// The law of the slice: it is at most the full slice and at least the least one, which is at
/// least 1, at every load and every full slice from 6 on. It does nothing when it runs.
pub fn slice_is_bounded()
    ensures { SliceIsBounded }
{}
