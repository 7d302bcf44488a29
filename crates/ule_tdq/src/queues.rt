ghost use Rattle.std.specs.Prelude.{◌≡◌, ℕ, ◌+◌, ◌/◌, [], IfOk, IfSome, IsSome, IsTrue, replicate};
ghost use Rattle.ule_prio.specs.Kind.{kind_at};
ghost use Rattle.ule_prio.specs.declared.kind.Kind.TheVariants.{Batch};
ghost use Rattle.ule_calendar.specs.Promise.{IsNearest};
ghost use Rattle.ule_runq.specs.Runq.{times};
ghost use Rattle.ule_runq.specs.Set.{has};
ghost use Rattle.ule_model.specs.CpuValue.{with_inserted};
ghost use Rattle.ule_model.specs.Steal.{queues_pick};
ghost use Rattle.ule_model.specs.declared.insertion.Insertion.TheVariants.{Borrowing};
ghost use Rattle.ule_tdq.specs.Queues.{once_for, times_queued, times_in, dial_with, dial_bucket, queues_with, bucket_with, queues_without, first_queued, kind_found};

use std::alloc::Global;
use std::marker::Model;
use ule_calendar::Calendar;
use ule_io::Memory;
use ule_model::Insertion;
use ule_prio::{Kind, Priority, ThreadId, kind_of};
use ule_runq::{Runq, ThreadSet};
use ule_steal::{pick_batch, pick_plain};

/// The three queues of a CPU, after `tdq_realtime`, `tdq_timeshare` and `tdq_idle`.
#[derive(Drop)]
pub struct Queues {
    pub real: Runq,
    pub batch: Calendar,
    pub idle: Runq,
}

impl Model for Queues {
    ghost use Rattle.ule_tdq.specs.Queues.{QueuesValue};

    ghost Value = { QueuesValue };

    ghost view = { λ q. record { real = q.real; batch = q.batch; idle = q.idle } };
}

impl Queues {
    /// Three empty queues, with all the memory that they ever need.
    pub fn empty(alloc: Global) -> Result<Queues, Memory>
        ensures { IfOk result (λ q. q ≡ record {
          real = replicate 64 [];
          batch = record { lists = replicate 64 []; idx = 0; ridx = 0 };
          idle = replicate 64 [];
        }) }
    {
        Ok(Queues {
            real: Runq::empty(alloc)?,
            batch: Calendar::empty(alloc)?,
            idle: Runq::empty(alloc)?,
        })
    }

    /// Queues a thread of this priority, and tells its bucket, after `tdq_runq_add`.
    pub fn insert(&mut self, how: Insertion, p: Priority, t: ThreadId) -> u8
        requires { times_queued self.old t ≡ 0 }
        ensures bucket { result ≡ bucket_with how p self.old }
        ensures filed { self.new ≡ queues_with how p t self.old }
        ensures times { (u : ℕ) → times_queued self.new u ≡ times_queued self.old u + once_for t u }
    {
        match kind_of(p) {
            Kind::Real => insert_plain(&mut self.real, how, p, t),
            Kind::Batch => insert_batch(&mut self.batch, how, p, t),
            Kind::Idle => insert_plain(&mut self.idle, how, p, t),
        }
    }

    /// Takes a thread out of its queue, after `tdq_runq_rem`.
    #[inline(always)]
    pub fn remove(&mut self, kind: Kind, t: ThreadId)
        requires { times_in kind self.old t ≡ 1 }
        ensures rest { self.new ≡ queues_without kind t self.old }
        ensures times { (u : ℕ) → times_queued self.new u + once_for t u ≡ times_queued self.old u }
    {
        match kind {
            Kind::Real => {
                self.real.remove(t);
            }
            Kind::Batch => {
                self.batch.remove(t);
            }
            Kind::Idle => {
                self.idle.remove(t);
            }
        }
    }

    /// Takes a thread out of its queue, by the index rule, and then queues it as borrowing.
    pub fn requeue(&mut self, kind: Kind, p: Priority, t: ThreadId)
        requires there { times_in kind self.old t ≡ 1 }
        requires once { times_queued self.old t ≡ 1 }
        ensures filed { self.new ≡ queues_with Borrowing p t (queues_without kind t self.old) }
        ensures times { (u : ℕ) → times_queued self.new u ≡ times_queued self.old u }
    {
        self.remove(kind, t);
        self.insert(Insertion::Borrowing, p, t);
    }

    /// The thread that these queues give to another CPU, where these may be moved: that of the first
    /// queue that has one. After `tdq_steal`.
    pub fn pick(&self, movable: &ThreadSet) -> Option<ThreadId>
        ensures value { result ≡ queues_pick (has movable.now) self.now.batch.ridx self.now.real self.now.batch.lists self.now.idle }
        ensures found { IfSome result (λ t. IsSome (kind_found self.now t)) }
        ensures movable { IfSome result (λ t. IsTrue (has movable.now t)) }
    {
        if let Some(t) = pick_plain(&self.real, movable) {
            return Some(t);
        }
        if let Some(t) = pick_batch(&self.batch, movable) {
            return Some(t);
        }
        pick_plain(&self.idle, movable)
    }

    /// The kind of the queue that has a thread, if one has it.
    pub fn kind_of_queued(&self, t: ThreadId) -> Option<Kind>
        ensures value { result ≡ kind_found self.now t }
        ensures found { IfSome result (λ k. times_in k self.now t ≡ 1) }
    {
        if self.real.find(t).is_some() {
            return Some(Kind::Real);
        }
        if self.batch.lists().find(t).is_some() {
            return Some(Kind::Batch);
        }
        match self.idle.find(t) {
            Some(_) => Some(Kind::Idle),
            None => None,
        }
    }

    /// The thread whose turn comes first, with its kind, after `tdq_choose`.
    pub fn first(&self) -> Option<(Kind, ThreadId)>
        ensures value { result ≡ first_queued self.now }
        ensures found { IfSome result (λ f. times_in f.0 self.now f.1 ≡ 1) }
        ensures nearest { IfSome result (λ f. f.0 ≡ Batch → IsNearest self.now.batch f.1) }
    {
        if let Some((_, t)) = self.real.first_from(0) {
            return Some((Kind::Real, t));
        }
        if let Some(t) = self.batch.first() {
            return Some((Kind::Batch, t));
        }
        match self.idle.first_from(0) {
            Some((_, t)) => Some((Kind::Idle, t)),
            None => None,
        }
    }
}

/// Queues a thread in a queue that is filed by priority alone.
fn insert_plain(queue: &mut Runq, how: Insertion, p: Priority, t: ThreadId) -> u8
    requires { times queue.old t ≡ 0 }
    ensures bucket { result ≡ p / 4 }
    ensures filed { queue.new ≡ with_inserted how queue.old (p / 4) t }
    ensures times { (u : ℕ) → times queue.new u ≡ times queue.old u + once_for t u }
{
    let bucket = p.0 / 4;
    match how {
        Insertion::Ordinary => queue.push_tail(bucket, t),
        Insertion::Borrowing => queue.push_tail(bucket, t),
        Insertion::Preempted => queue.push_head(bucket, t),
    }
    bucket
}

/// Queues a thread in the calendar.
fn insert_batch(calendar: &mut Calendar, how: Insertion, p: Priority, t: ThreadId) -> u8
    requires batch { kind_at p ≡ Batch }
    requires absent { times calendar.old.lists t ≡ 0 }
    ensures bucket { result ≡ dial_bucket how calendar.old p }
    ensures filed { calendar.new ≡ dial_with how calendar.old p t }
    ensures times { (u : ℕ) → times calendar.new.lists u ≡ times calendar.old.lists u + once_for t u }
{
    match how {
        Insertion::Ordinary => calendar.insert(t, p),
        Insertion::Borrowing => calendar.insert_at_index(t, false),
        Insertion::Preempted => calendar.insert_at_index(t, true),
    }
}
