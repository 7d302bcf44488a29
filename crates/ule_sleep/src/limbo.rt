ghost use Rattle.std.specs.Prelude.{◌≡◌, ℕ, None, Some, IfOk, IfSome, IsSome, IsTrue};
ghost use Rattle.std.specs.Option.{option_map};
ghost use Rattle.ule_score.specs.Bounds.{KeepsBounds};
ghost use Rattle.ule_score.specs.Changes.{after_change};
ghost use Rattle.ule_score.specs.Charges.{HasShortRun};
ghost use Rattle.ule_score.specs.Settings.{are_settings};
ghost use Rattle.ule_score.specs.declared.place.Place.TheVariants.{Unborn, Gone};
ghost use Rattle.ule_sleep.specs.Chain.{changed_in_place, place_standing, standing_in, thread_standing};
ghost use Rattle.ule_sleep.specs.Limbo.{HasUnborn, IsEmptyLimbo, IsStillOf, KeepsLimbo, with_still, with_still_changed, without_still};

use std::alloc::Global;
use std::marker::Model;
use ule_io::Memory;
use ule_prio::ThreadId;
use ule_score::{Change, Changed, Place, Settings, ThreadRecord, after_change};
use ule_threads::{Standing, Standings};

/// The threads that are unborn or gone, under one lock. It finds a thread by its number at once.
#[derive(Drop)]
pub struct Limbo {
    stills: Standings,
}

impl Model for Limbo {
    ghost use Rattle.ule_sleep.specs.Limbo.{LimboValue, KeepsLimbo};

    ghost Value = { LimboValue };

    ghost view = { λ l. record { slots = l.stills } };

    ghost invariant = { λ l. KeepsLimbo (record { slots = l.stills }) };
}

impl Limbo {
    /// Limbo without threads. It takes all the memory that it ever needs.
    pub fn start(alloc: Global) -> Result<Limbo, Memory>
        ensures empty { IfOk result (λ l. IsEmptyLimbo l) }
        ensures keeps { IfOk result KeepsLimbo }
    {
        let stills = Standings::none(alloc)?;
        Ok(Limbo { stills })
    }

    /// A thread that was declared and not forked comes here, or comes back.
    pub fn unborn(&mut self, r: ThreadRecord)
        requires absent { standing_in self.old.slots r.id ≡ None }
        requires bounds { KeepsBounds r }
        ensures rest { self.new ≡ with_still r Unborn self.old }
        ensures keeps { KeepsLimbo self.new }
    {
        let place = Place::Unborn;
        self.stills.put(r.id, Some(Standing { thread: r, place }));
    }

    /// A thread that has exited is gone, after `thread_exit`.
    pub fn bury(&mut self, r: ThreadRecord)
        requires absent { standing_in self.old.slots r.id ≡ None }
        requires bounds { KeepsBounds r }
        ensures rest { self.new ≡ with_still r Gone self.old }
        ensures keeps { KeepsLimbo self.new }
    {
        let place = Place::Gone;
        self.stills.put(r.id, Some(Standing { thread: r, place }));
    }

    /// Takes out an unborn thread, to be forked.
    pub fn hatch(&mut self, t: ThreadId) -> ThreadRecord
        requires { HasUnborn self.old t }
        ensures thread { Some result ≡ thread_standing (standing_in self.old.slots t) }
        ensures rest { self.new ≡ without_still t self.old }
        ensures keeps { KeepsLimbo self.new }
        ensures number { result.id ≡ t }
        ensures bounds { KeepsBounds result }
    {
        let Some(found) = self.stills.get(t) else {
            unreachable!()
        };
        self.stills.put(t, None);
        found.thread
    }

    /// Changes the record of a thread that is here, which keeps its place: it is charged with the
    /// run time of a child that exited, in 1024ths of an hz tick and below 2^62, after
    /// `sched_exit_thread`; or a priority is lent to it or taken back, or its nice value is set.
    pub fn change(&mut self, t: ThreadId, c: Change, s: &Settings) -> Changed
        requires present { IsSome (standing_in self.old.slots t) }
        requires settings { IsTrue (are_settings s.now) }
        requires run { HasShortRun c }
        ensures answer { Some result ≡ option_map (λ r. changed_in_place (after_change s.now c r)) (thread_standing (standing_in self.old.slots t)) }
        ensures rest { self.new ≡ with_still_changed s.now c t self.old }
        ensures keeps { KeepsLimbo self.new }
    {
        let Some(found) = self.stills.get(t) else {
            unreachable!()
        };
        let place = found.place;
        let thread = after_change(s, c, found.thread);
        let priority = thread.priority;
        self.stills.put(t, Some(Standing { thread, place }));
        Changed {
            priority,
            requeued: false,
            marked: false,
        }
    }

    /// The record of a thread; none exactly where it isn't here.
    pub fn thread(&self, t: ThreadId) -> Option<ThreadRecord>
        ensures { result ≡ thread_standing (standing_in self.now.slots t) }
    {
        match self.stills.get(t) {
            Some(found) => Some(found.thread),
            None => None,
        }
    }

    /// Whether a thread is unborn or gone; none exactly where it isn't here.
    pub fn place_of(&self, t: ThreadId) -> Option<Place>
        ensures { result ≡ place_standing (standing_in self.now.slots t) }
    {
        match self.stills.get(t) {
            Some(found) => Some(found.place),
            None => None,
        }
    }

    /// A thread with its place, if it is here.
    pub fn standing(&self, t: ThreadId) -> Option<Standing>
        ensures standing { result ≡ standing_in self.now.slots t }
        ensures still { IfSome result (IsStillOf t) }
    {
        self.stills.get(t)
    }
}
