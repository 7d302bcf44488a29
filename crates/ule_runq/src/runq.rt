ghost use Rattle.std.specs.Prelude.{◌≡◌, ℕ, ◌+◌, ◌%◌, ◌<◌, ◌≤◌, ◌↔◌, false, IsTrue, [], replicate, length, find, All, IfOk, IsNone, IfSome, OnSome};
ghost use Rattle.ule_runq.specs.Links.{SpellsLists, ReadsAs};
ghost use Rattle.ule_runq.specs.Runq.{IsRunq, list_at, is_empty_at, with_tail, with_head, without, times, first_from, IsFirstFrom, is_eligible, first_allowed, bucket_in, place_in};
ghost use Rattle.ule_runq.specs.Set.{has};

use crate::links::{Links, NONE, THREADS};
use crate::set::ThreadSet;
use std::alloc::Global;
use std::marker::Model;
use ule_io::Memory;
use ule_prio::ThreadId;

/// The number of buckets of a run queue, after `RQ_NQS` of `runq.h`.
pub const RQ_NQS: u8 = 64;

/// A run queue, after `struct runq`: 64 lists of thread numbers, each head first, with no number
/// twice and room for all 256.
#[derive(Drop)]
pub struct Runq {
    links: Box<Links>,
}

impl Model for Runq {
    ghost use Rattle.std.specs.Prelude.{List, ℕ};
    ghost use Rattle.ule_runq.specs.Links.{SpellsLists, lists_of};

    ghost Value = { List (List ℕ) };

    ghost view = { λ q. lists_of q.links.value };

    ghost invariant = { λ q. SpellsLists q.links.value (lists_of q.links.value) };
}

// Whether `t` is in the set and isn't the thread to be skipped.
fn is_eligible(t: ThreadId, allowed: &ThreadSet, skip: &Option<ThreadId>) -> bool
    ensures { result ≡ is_eligible (has allowed.now) skip.now t }
{
    match skip {
        None => allowed.has(t),
        Some(skipped) => allowed.has(t) && t != *skipped,
    }
}

impl Runq {
    /// An empty run queue, after `runq_init`. It takes all the memory that it ever needs.
    pub fn empty(alloc: Global) -> Result<Runq, Memory>
        ensures { IfOk result (λ q. q ≡ replicate RQ_NQS []) }
    {
        match Box::new(alloc, Links::empty()) {
            Ok(links) => Ok(Runq { links }),
            Err(_) => Err(Memory),
        }
    }

    /// Puts `t` behind the threads of bucket `b`, after `runq_add`.
    pub fn push_tail(&mut self, b: u8, t: ThreadId)
        requires bucket { b < RQ_NQS }
        requires absent { times self.old t ≡ 0 }
        ensures filed { self.new ≡ with_tail self.old b t }
        ensures whole { IsRunq self.new }
        ensures number { t < 256 }
    {
        let links = &mut *self.links;
        let last = links.tail[usize::from(b)];
        links.link_in(b, last, t.0, NONE);
    }

    /// Puts `t` before the threads of bucket `b`, after `runq_add` of a preempted thread.
    pub fn push_head(&mut self, b: u8, t: ThreadId)
        requires bucket { b < RQ_NQS }
        requires absent { times self.old t ≡ 0 }
        ensures filed { self.new ≡ with_head self.old b t }
        ensures whole { IsRunq self.new }
        ensures number { t < 256 }
    {
        let links = &mut *self.links;
        let first = links.head[usize::from(b)];
        links.link_in(b, NONE, t.0, first);
    }

    /// Takes `t` out and says from which bucket, after `runq_remove`.
    pub fn remove(&mut self, t: ThreadId) -> u8
        requires { times self.old t ≡ 1 }
        ensures bucket { bucket_in self.old t ≡ Some result }
        ensures rest { self.new ≡ without t self.old }
        ensures whole { IsRunq self.new }
    {
        let links = &mut *self.links;
        let b = links.bucket[usize::from(t.0)] as u8;
        links.link_out(b, t.0);
        b
    }

    // How many empty buckets come from bucket `b` on, going round: `RQ_NQS` where all are empty.
    fn empty_from(&self, b: u8) -> u8
        requires { b < RQ_NQS }
        ensures within { result ≤ RQ_NQS }
        ensures before { (j : ℕ) → j < result → list_at self.now ((b + j) % RQ_NQS) ≡ [] }
        ensures behind { result < RQ_NQS → 0 < length (list_at self.now ((b + result) % RQ_NQS)) }
        ensures whole { IsRunq self.now }
    {
        let turned = self.links().status.rotate_right(u32::from(b));
        turned.trailing_zeros() as u8
    }

    /// The first thread from bucket `b` on, and round to it, with its bucket, after
    /// `runq_choose_from`.
    pub fn first_from(&self, b: u8) -> Option<(u8, ThreadId)>
        requires { b < RQ_NQS }
        ensures value { result ≡ first_from self.now b }
        ensures none { IsNone result ↔ All (λ xs. xs ≡ []) self.now }
        ensures found { IfSome result (λ p. times self.now p.1 ≡ 1) }
        ensures nearest { IfSome result (λ p. IsFirstFrom self.now b p.0 p.1) }
        ensures whole { IsRunq self.now }
    {
        let step = self.empty_from(b);
        if step == RQ_NQS {
            return None;
        }
        let bucket = (b + step) % RQ_NQS;
        let first = self.links().head[usize::from(bucket)];
        Some((bucket, ThreadId(first as u8)))
    }

    /// The first thread from bucket `b` on, and round to it, that is in `allowed` and isn't `skip`,
    /// after `runq_steal` and `runq_steal_from`.
    pub fn first_allowed(
        &self,
        b: u8,
        allowed: &ThreadSet,
        skip: Option<ThreadId>,
    ) -> Option<ThreadId>
        requires { b < RQ_NQS }
        ensures value { result ≡ first_allowed (has allowed.now) skip self.now b }
        ensures none { IsNone result
            ↔ ((t : ℕ) → 0 < times self.now t → is_eligible (has allowed.now) skip t ≡ false) }
        ensures found { IfSome result (λ t. times self.now t ≡ 1) }
        ensures allowed { IfSome result (λ t. IsTrue (is_eligible (has allowed.now) skip t)) }
        ensures whole { IsRunq self.now }
    {
        for step in self.empty_from(b)..RQ_NQS {
            let at = (b + step) % RQ_NQS;
            if let Some(t) = self.first_allowed_in(at, allowed, &skip) {
                return Some(t);
            }
        }
        None
    }

    // The first thread of bucket `b` that is in `allowed` and isn't `skip`.
    fn first_allowed_in(
        &self,
        b: u8,
        allowed: &ThreadSet,
        skip: &Option<ThreadId>,
    ) -> Option<ThreadId>
        requires { b < RQ_NQS }
        ensures { result ≡ find (is_eligible (has allowed.now) skip.now) (list_at self.now b) }
    {
        let links = self.links();
        let mut at = links.head[usize::from(b)];
        for _ in 0..THREADS {
            if at == NONE {
                return None;
            }
            let t = ThreadId(at as u8);
            if is_eligible(t, allowed, skip) {
                return Some(t);
            }
            at = links.next[usize::from(at)];
        }
        None
    }

    /// Whether no thread waits in bucket `b`.
    pub fn is_empty_bucket(&self, b: u8) -> bool
        requires { b < RQ_NQS }
        ensures value { result ≡ is_empty_at self.now b }
        ensures whole { IsRunq self.now }
    {
        self.links().head[usize::from(b)] == NONE
    }

    /// The tables that the queue keeps. They spell its lists, forward from each head and backward
    /// from each tail.
    pub fn links(&self) -> &Links
        ensures spells { SpellsLists result.now self.now }
        ensures read { ReadsAs result.now self.now }
        ensures whole { IsRunq self.now }
    {
        &self.links
    }

    /// The bucket in which `t` waits, and its position there, where the head has position 0.
    pub fn find(&self, t: ThreadId) -> Option<(u8, u16)>
        ensures value { result ≡ place_in self.now t }
        ensures none { IsNone result ↔ (times self.now t ≡ 0) }
        ensures found { OnSome result (times self.now t ≡ 1) }
        ensures within { IfSome result (λ at. (at.0 < RQ_NQS) × (at.1 < 256)) }
        ensures whole { IsRunq self.now }
    {
        let links = self.links();
        let b = links.bucket[usize::from(t.0)];
        if b == NONE {
            return None;
        }
        let mut at = links.head[usize::from(b)];
        for position in 0..THREADS {
            if at == u16::from(t.0) {
                return Some((b as u8, position));
            }
            at = links.next[usize::from(at)];
        }
        None
    }
}
