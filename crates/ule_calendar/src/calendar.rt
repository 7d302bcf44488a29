ghost use Rattle.std.specs.Prelude.{◌≡◌, ◌≢◌, ◌<◌, ◌↔◌, [], Some, replicate, All, IfOk, IfSome, IsNone};
ghost use Rattle.std.specs.Option.{option_map};
ghost use Rattle.ule_prio.specs.Kind.{kind_at};
ghost use Rattle.ule_prio.specs.declared.kind.Kind.TheVariants.{Batch};
ghost use Rattle.ule_runq.specs.Runq.{times, bucket_in, first_from};
ghost use Rattle.ule_model.specs.CalendarIndexes.{calendar_bucket, distance_of};
ghost use Rattle.ule_calendar.specs.Calendar.{with_ordinary, with_next, after_removal, turned, IsCalendar};
ghost use Rattle.ule_calendar.specs.Promise.{DialGoesOn, DialIsClose, IsNearest, KeepsIndexes};

use std::alloc::Global;
use std::marker::Model;
use ule_io::Memory;
use ule_prio::{Priority, ThreadId};
use ule_runq::Runq;

// The bucket of a batch priority, 152..=223: one of the 64 from the insertion index on, but not
// the one at the removal index while that index is behind.
fn ordinary_bucket(idx: u8, ridx: u8, p: Priority) -> u8
    requires batch { kind_at p ≡ Batch }
    requires idx { idx < 64 }
    ensures value { result ≡ calendar_bucket idx ridx p }
    ensures within { result < 64 }
{
    let reach = 64 * u16::from(p.0 - 152) / 72;
    let bucket = ((reach + u16::from(idx)) % 64) as u8;
    if ridx != idx && bucket == ridx {
        (bucket + 63) % 64
    } else {
        bucket
    }
}

/// A batch calendar, after `tdq_timeshare`, `tdq_idx` and `tdq_ridx` of `struct tdq`: 64 buckets in
/// a round, with a thread number in one of them at most.
///
/// Its insertion index is at its removal index, or one ahead of it while the bucket at the removal
/// index isn't empty. It starts empty with both at 0.
#[derive(Drop)]
pub struct Calendar {
    lists: Runq,
    idx: u8,
    ridx: u8,
}

impl Model for Calendar {
    ghost use Rattle.ule_calendar.specs.Calendar.{Dial, IsCalendar};

    ghost Value = { Dial };

    ghost view = { λ c. record { lists = c.lists; idx = c.idx; ridx = c.ridx } };

    ghost invariant = { λ c. IsCalendar (record { lists = c.lists; idx = c.idx; ridx = c.ridx }) };
}

impl Calendar {
    /// An empty calendar, after `tdq_setup`. It takes all the memory that it ever needs.
    pub fn empty(alloc: Global) -> Result<Calendar, Memory>
        ensures start { IfOk result (λ c. c ≡ record { lists = replicate 64 []; idx = 0; ridx = 0 }) }
        ensures close { IfOk result (λ c. DialIsClose c) }
    {
        Ok(Calendar {
            lists: Runq::empty(alloc)?,
            idx: 0,
            ridx: 0,
        })
    }

    /// Files `t` at the tail of the bucket of its batch priority, 152..=223, and says which it is,
    /// 0..=63, after `tdq_runq_add`. The 72 priorities are spread over the 64 buckets from the
    /// insertion index on. While that index is ahead, no thread is filed at the removal index: the
    /// bucket before it, the farthest ahead, takes its place.
    pub fn insert(&mut self, t: ThreadId, p: Priority) -> u8
        requires batch { kind_at p ≡ Batch }
        requires absent { times self.old.lists t ≡ 0 }
        ensures bucket { result ≡ calendar_bucket self.old.idx self.old.ridx p }
        ensures within { result < 64 }
        ensures filed { self.new ≡ with_ordinary self.old t p }
        ensures calendar { IsCalendar self.new }
        ensures goes_on { DialGoesOn self.old self.new }
        ensures indexes { KeepsIndexes self.old self.new }
        ensures ahead { self.old.idx ≢ self.old.ridx → result ≢ self.old.ridx }
    {
        let bucket = ordinary_bucket(self.idx, self.ridx, p);
        self.lists.push_tail(bucket, t);
        bucket
    }

    /// Files `t` in the bucket at the removal index, at its head or its tail, and says which it
    /// is, 0..=63: a preempted thread goes to the head, and one whose priority got better while it
    /// was queued to the tail. After `tdq_runq_add` with `SRQ_PREEMPTED` or `SRQ_BORROWING`.
    pub fn insert_at_index(&mut self, t: ThreadId, head: bool) -> u8
        requires { times self.old.lists t ≡ 0 }
        ensures bucket { result ≡ self.old.ridx }
        ensures within { result < 64 }
        ensures filed { self.new ≡ with_next self.old t head }
        ensures calendar { IsCalendar self.new }
        ensures goes_on { DialGoesOn self.old self.new }
        ensures indexes { KeepsIndexes self.old self.new }
    {
        if head {
            self.lists.push_head(self.ridx, t);
        } else {
            self.lists.push_tail(self.ridx, t);
        }
        self.ridx
    }

    /// Takes `t` out and says from which bucket, 0..=63, after `tdq_runq_rem`. Where this empties
    /// the bucket at the removal index while the insertion index is ahead, the removal index
    /// follows; where both are equal it stays.
    pub fn remove(&mut self, t: ThreadId) -> u8
        requires { times self.old.lists t ≡ 1 }
        ensures bucket { bucket_in self.old.lists t ≡ Some result }
        ensures rest { self.new ≡ after_removal self.old t }
        ensures calendar { IsCalendar self.new }
        ensures goes_on { DialGoesOn self.old self.new }
        ensures idx { self.new.idx ≡ self.old.idx }
    {
        let bucket = self.lists.remove(t);
        if self.idx != self.ridx && self.lists.is_empty_bucket(self.ridx) {
            self.ridx = (self.ridx + 1) % 64;
        }
        bucket
    }

    /// A turn of the calendar at a stathz tick, after `sched_clock`: where both indexes are equal
    /// the insertion index goes on by one, and the removal index with it if its bucket is empty.
    /// Where they differ, the bucket at the removal index isn't drained yet, and nothing changes.
    pub fn turn(&mut self)
        ensures turned { self.new ≡ turned self.old }
        ensures calendar { IsCalendar self.new }
        ensures goes_on { DialGoesOn self.old self.new }
    {
        if self.idx == self.ridx {
            self.idx = (self.idx + 1) % 64;
            if self.lists.is_empty_bucket(self.ridx) {
                self.ridx = self.idx;
            }
        }
    }

    /// The thread to be chosen next, which is the first from the removal index on and round to
    /// it, or none where the calendar is empty. After `runq_choose_from` as `tdq_choose` calls it.
    pub fn first(&self) -> Option<ThreadId>
        ensures value { result ≡ option_map (λ f. f.1) (first_from self.now.lists self.now.ridx) }
        ensures none { IsNone result ↔ All (λ xs. xs ≡ []) self.now.lists }
        ensures found { IfSome result (λ t. times self.now.lists t ≡ 1) }
        ensures nearest { IfSome result (λ t. IsNearest self.now t) }
        ensures close { DialIsClose self.now }
    {
        let (_, t) = self.lists.first_from(self.ridx)?;
        Some(t)
    }

    /// How many buckets bucket `b`, 0..=63, lies ahead of the removal index, going round: 0..=63.
    /// FreeBSD has no function for it.
    pub fn distance(&self, b: u8) -> u8
        requires { b < 64 }
        ensures value { result ≡ distance_of self.now.ridx b }
        ensures close { DialIsClose self.now }
    {
        (b + 64 - self.ridx) % 64
    }

    /// The insertion index, 0..=63, after `tdq_idx`.
    pub fn idx(&self) -> u8
        ensures value { result ≡ self.now.idx }
        ensures calendar { IsCalendar self.now }
        ensures close { DialIsClose self.now }
    {
        self.idx
    }

    /// The removal index, 0..=63, after `tdq_ridx`.
    pub fn ridx(&self) -> u8
        ensures value { result ≡ self.now.ridx }
        ensures calendar { IsCalendar self.now }
        ensures close { DialIsClose self.now }
    {
        self.ridx
    }

    /// The 64 buckets, after `tdq_timeshare`.
    pub fn lists(&self) -> &Runq
        ensures value { result.now ≡ self.now.lists }
        ensures close { DialIsClose self.now }
    {
        &self.lists
    }
}
