ghost use Rattle.std.specs.Prelude.{◌≡◌, ℕ, ◌%◌, ◌<◌, None, Some, IfOk, IfSome, IsSome, IsTrue};
ghost use Rattle.std.specs.Option.{option_map};
ghost use Rattle.ule_score.specs.Bounds.{KeepsBounds};
ghost use Rattle.ule_score.specs.Changes.{after_change};
ghost use Rattle.ule_score.specs.Charges.{HasShortRun};
ghost use Rattle.ule_score.specs.Settings.{are_settings};
ghost use Rattle.ule_sleep.specs.Chain.{IsEmptyChain, IsSleeperOf, KeepsChain, changed_in_place, place_standing, standing_in, thread_standing, with_sleeper, with_sleeper_changed, without_sleeper};

use std::alloc::Global;
use std::marker::Model;
use ule_io::Memory;
use ule_prio::ThreadId;
use ule_score::{Change, Changed, Place, Settings, ThreadRecord, after_change};
use ule_threads::{Standing, Standings};

/// One of the eight sleep chains: the threads that sleep on the channels whose remainder by 8 is
/// its number. It finds a thread by its number at once.
#[derive(Drop)]
pub struct Chain {
    number: u8,
    sleepers: Standings,
}

impl Model for Chain {
    ghost use Rattle.ule_sleep.specs.Chain.{ChainValue, KeepsChain};

    ghost Value = { ChainValue };

    ghost view = { λ c. record { number = c.number; slots = c.sleepers } };

    ghost invariant = { λ c. KeepsChain (record { number = c.number; slots = c.sleepers }) };
}

impl Chain {
    /// A chain of this number, 0..=7, without sleepers. It takes all the memory that it ever needs.
    pub fn start(alloc: Global, number: u8) -> Result<Chain, Memory>
        requires { number < 8 }
        ensures empty { IfOk result (λ c. IsEmptyChain c number) }
        ensures keeps { IfOk result KeepsChain }
    {
        let sleepers = Standings::none(alloc)?;
        Ok(Chain { number, sleepers })
    }

    /// Puts a thread to sleep on a channel of this chain, 0..=65,535, after `sleepq_add`.
    pub fn bed(&mut self, r: ThreadRecord, channel: u16)
        requires chain { channel % 8 ≡ self.old.number }
        requires absent { standing_in self.old.slots r.id ≡ None }
        requires bounds { KeepsBounds r }
        ensures rest { self.new ≡ with_sleeper r channel self.old }
        ensures keeps { KeepsChain self.new }
    {
        let place = Place::Asleep(channel);
        self.sleepers.put(r.id, Some(Standing { thread: r, place }));
    }

    /// Takes a sleeping thread out, after `sleepq_remove_thread`.
    pub fn take_out(&mut self, t: ThreadId) -> ThreadRecord
        requires { IsSome (standing_in self.old.slots t) }
        ensures thread { Some result ≡ thread_standing (standing_in self.old.slots t) }
        ensures rest { self.new ≡ without_sleeper t self.old }
        ensures keeps { KeepsChain self.new }
        ensures number { result.id ≡ t }
        ensures bounds { KeepsBounds result }
    {
        let Some(found) = self.sleepers.get(t) else {
            unreachable!()
        };
        self.sleepers.put(t, None);
        found.thread
    }

    /// Changes the record of a sleeping thread, which sleeps on: a priority is lent to it or taken
    /// back, its nice value is set, or it is charged with the run time of a child that exited, in
    /// 1024ths of an hz tick and below 2^62. After `sched_thread_priority` of a thread that isn't
    /// on a run queue.
    pub fn change(&mut self, t: ThreadId, c: Change, s: &Settings) -> Changed
        requires present { IsSome (standing_in self.old.slots t) }
        requires settings { IsTrue (are_settings s.now) }
        requires run { HasShortRun c }
        ensures answer { Some result ≡ option_map (λ r. changed_in_place (after_change s.now c r)) (thread_standing (standing_in self.old.slots t)) }
        ensures rest { self.new ≡ with_sleeper_changed s.now c t self.old }
        ensures keeps { KeepsChain self.new }
    {
        let Some(found) = self.sleepers.get(t) else {
            unreachable!()
        };
        let place = found.place;
        let thread = after_change(s, c, found.thread);
        let priority = thread.priority;
        self.sleepers.put(t, Some(Standing { thread, place }));
        Changed {
            priority,
            requeued: false,
            marked: false,
        }
    }

    /// The record of a thread; none exactly where it doesn't sleep here.
    pub fn thread(&self, t: ThreadId) -> Option<ThreadRecord>
        ensures { result ≡ thread_standing (standing_in self.now.slots t) }
    {
        match self.sleepers.get(t) {
            Some(found) => Some(found.thread),
            None => None,
        }
    }

    /// Where a thread sleeps; none exactly where it doesn't sleep here.
    pub fn place_of(&self, t: ThreadId) -> Option<Place>
        ensures { result ≡ place_standing (standing_in self.now.slots t) }
    {
        match self.sleepers.get(t) {
            Some(found) => Some(found.place),
            None => None,
        }
    }

    /// A thread with its place, if it sleeps here.
    pub fn standing(&self, t: ThreadId) -> Option<Standing>
        ensures standing { result ≡ standing_in self.now.slots t }
        ensures sleeper { IfSome result (IsSleeperOf self.now.number t) }
    {
        self.sleepers.get(t)
    }
}
