//! The step model: lock words, threads' words, values, and workers that step one at a time.
ghost use Rattle.std.specs.Prelude.{◌≡◌, ◌<◌, ◌≤◌, length, slice_get, All, None, Some, if◌then◌else◌};
ghost use Rattle.ule_micro.specs.Kept.{IsTurned, WorkerStandsAt, TakesNext, ReleasesNext};
ghost use Rattle.ule_micro.specs.States.{IsEntry, lock_holder, pending, word_of};
ghost use Rattle.ule_micro.specs.Theorem.{HasLegalPlay, IsNoStep, IsNotStuck, LockAgreement, WordTellsPlace};
ghost use Rattle.ule_micro.specs.Turns.{is_named, played};
ghost use Rattle.ule_micro.specs.declared.entry.HeldLocks.TheVariants.{One};
ghost use Rattle.ule_micro.specs.Means.{fixed_by, lock_of};
ghost use Rattle.ule_micro.specs.declared.seat.Phase.TheVariants as phase;
ghost use Rattle.ule_micro.specs.declared.seat.Progress.TheVariants as progress;
ghost use Rattle.ule_micro.specs.declared.seat.Seat.{Seat};

use crate::entry::{Entry, HeldLocks};
use crate::going::go_on;
use crate::parts::Parts;
use crate::performing::act;
use crate::seat::{Phase, Progress, Seat};
use crate::turn::{StepDone, Turn};
use crate::word::{Word, WordChange};
use std::marker::Model;
use ule_prio::{LockId, ThreadId};

/// The workers of a scheduler, which step one at a time over its 25 lock words and 256 thread
/// words.
#[derive(Drop)]
pub struct Micro<P: Parts> {
    pub(crate) parts: P,
    pub(crate) locks: Vec<Option<u8>>,
    pub(crate) words: Vec<Word>,
    pub(crate) ticket: u32,
    pub(crate) time: u64,
    pub(crate) values: Vec<P::Value>,
    pub(crate) seats: Vec<Seat<P::Own, P::Event, P::Reply>>,
    pub(crate) history: Vec<Entry<P::Event, P::Reply>>,
}

impl<P: Parts> Model for Micro<P> {
    ghost use Rattle.std.specs.Prelude.{◌≤◌, length, vec_capacity};
    ghost use Rattle.ule_micro.specs.States.{Machine};
    ghost use Rattle.ule_micro.specs.Kept.{IsKeptState, machine_of};
    ghost use Rattle.ule_micro.specs.Means.{budgets};

    ghost Value = { Machine P P.Own P.Value P.Event P.Reply };

    ghost view = { λ s. machine_of s.parts s.locks.items s.words.items s.ticket s.time s.values.items s.seats.items s.history.items };

    ghost invariant = { λ s. IsKeptState (P.means s.parts) (P.orders s.parts) (machine_of s.parts s.locks.items s.words.items s.ticket s.time s.values.items s.seats.items s.history.items).state × (budgets (P.means s.parts).budget (length (P.means s.parts).owns) ≤ vec_capacity s.history) };
}

impl<P: Parts> Micro<P> {
    /// One turn of a worker that there is: its next step, or what keeps it from stepping.
    pub fn advance(&mut self, worker: u8) -> Turn
        requires { worker < length self.old.state.seats }
        ensures turned { IsTurned (P.means self.old.parts) (P.orders self.old.parts) self.old worker result self.new }
        ensures workers { length self.new.state.seats ≡ length self.old.state.seats }
        ensures finished { result ≡ Turn.Finished → WorkerStandsAt self.old.state worker phase.Finished }
        ensures unmoved { IsNoStep result → self.new.state ≡ self.old.state }
        ensures agrees { LockAgreement (P.means self.new.parts) (P.orders self.new.parts) self.new.state }
        ensures legal { HasLegalPlay (P.means self.new.parts) (P.orders self.new.parts) self.new.state }
        ensures tells { WordTellsPlace (P.means self.new.parts) self.new.state }
        ensures goes_on { IsNotStuck (P.means self.new.parts) (P.orders self.new.parts) self.new.state }
    {
        // The reads tell the proof what the state keeps, before the turn and after it.
        let _ = &self.ticket;
        let turn = self.turn(worker);
        let _ = &self.ticket;
        turn
    }

    /// These turns of workers that there are, one after another.
    pub fn play(&mut self, turns: &[u8])
        requires { All (λ w. w < length self.old.state.seats) turns.now }
        ensures parts { self.new.parts ≡ self.old.parts }
        ensures workers { length self.new.state.seats ≡ length self.old.state.seats }
        ensures played { self.new.state ≡ played (P.means self.old.parts) (P.orders self.old.parts) self.old.state turns.now }
        ensures agrees { LockAgreement (P.means self.new.parts) (P.orders self.new.parts) self.new.state }
        ensures legal { HasLegalPlay (P.means self.new.parts) (P.orders self.new.parts) self.new.state }
        ensures tells { WordTellsPlace (P.means self.new.parts) self.new.state }
        ensures goes_on { IsNotStuck (P.means self.new.parts) (P.orders self.new.parts) self.new.state }
    {
        for worker in turns {
            let _ = self.advance(*worker);
        }
        // The read tells the proof what the state keeps after the last turn.
        let _ = &self.ticket;
    }

    /// The number of workers.
    pub fn workers(&self) -> u8
        ensures { result ≡ length self.now.state.seats }
    {
        self.seats.len() as u8
    }

    /// The parts that it was started with.
    pub fn parts(&self) -> &P
        ensures { result.now ≡ self.now.parts }
    {
        &self.parts
    }

    /// That the state agrees, and that the play so far is legal, as every state of a step model does.
    /// It does nothing when it runs.
    pub fn keeps_agreement(&self)
        ensures workers { length self.now.state.seats ≡ length (P.means self.now.parts).owns }
        ensures agrees { LockAgreement (P.means self.now.parts) (P.orders self.now.parts) self.now.state }
        ensures legal { HasLegalPlay (P.means self.now.parts) (P.orders self.now.parts) self.now.state }
    {
        // The read tells the proof what the state keeps.
        let _ = &self.ticket;
    }

    /// The worker that holds a lock; none exactly where the lock word is free.
    pub fn holder(&self, l: LockId) -> Option<u8>
        ensures { result ≡ lock_holder self.now.state l }
    {
        self.locks[l.0 as usize]
    }

    /// A thread's word.
    pub fn word(&self, t: ThreadId) -> Word
        ensures { result ≡ word_of self.now.state t }
    {
        self.words[t.0 as usize]
    }

    /// The value under a lock.
    pub fn value(&self, l: LockId) -> &P::Value
        ensures { slice_get self.now.state.values l ≡ Some result.now }
    {
        &self.values[l.0 as usize]
    }

    /// The own part of a worker that there is.
    pub fn own(&self, worker: u8) -> &P::Own
        requires { worker < length self.now.state.seats }
        ensures { (p : Seat P.Own P.Event P.Reply) × (slice_get self.now.state.seats worker ≡ Some p) × (p.own ≡ result.now) }
    {
        &self.seats[worker as usize].own
    }

    /// The ticket: the number of entries so far.
    pub fn ticket(&self) -> u32
        ensures { result ≡ self.now.state.ticket }
    {
        self.ticket
    }

    /// The worker, the time, the event and the reply of entry `k`, from 1 to the ticket.
    pub fn entry(&self, k: u32) -> (u8, u64, &P::Event, &P::Reply)
        requires from_one { 0 < k }
        requires made { k ≤ self.now.state.ticket }
        ensures { IsEntry self.now.state k result.0 result.1 result.2.now result.3.now }
    {
        let entry = &self.history[k as usize - 1];
        (entry.worker, entry.now, &entry.event, &entry.reply)
    }

    /// The next step of a worker, by where it stands.
    fn turn(&mut self, worker: u8) -> Turn
        requires there { worker < length self.old.state.seats }
        ensures { IsTurned (P.means self.old.parts) (P.orders self.old.parts) self.old worker result self.new }
    {
        let phase = self.seats[worker as usize].phase;
        match phase {
            Phase::Finished => Turn::Finished,
            Phase::Advance(k) => self.raise(worker, k),
            Phase::Event(e, way) => self.approach(worker, e, way),
            Phase::Leaving(reply, now, held) => self.leave(worker, reply, now, held),
        }
    }

    /// Raises the time.
    fn raise(&mut self, worker: u8, k: u32) -> Turn
        requires at { WorkerStandsAt self.old.state worker (phase.Advance k) }
        ensures { IsTurned (P.means self.old.parts) (P.orders self.old.parts) self.old worker result self.new }
    {
        self.time += k as u64;
        let seat = &mut self.seats[worker as usize];
        seat.items += 1;
        seat.advanced += k as u64;
        go_on(&self.parts, worker, seat, None);
        Turn::Moved(StepDone::Advance(k))
    }

    /// The next step of an event on the way to its commit.
    fn approach(&mut self, worker: u8, e: P::Event, way: Progress) -> Turn
        requires at { WorkerStandsAt self.old.state worker (phase.Event e way) }
        ensures { IsTurned (P.means self.old.parts) (P.orders self.old.parts) self.old worker result self.new }
    {
        match way {
            Progress::Open => self.open_event(worker, e),
            Progress::Named(t, l) => self.take(worker, l, Phase::Event(e, Progress::Taken(t, l))),
            Progress::Taken(t, l) => self.second_read(worker, e, t, l),
            Progress::Stale(l) => self.release(worker, l, Phase::Event(e, Progress::Open)),
            Progress::Half(a, b) => {
                let held = HeldLocks::Two(a, b);
                self.take(worker, b, Phase::Event(e, Progress::Locked(held)))
            }
            Progress::Locked(held) => self.read_now(worker, e, held),
            Progress::Timed(held, now) => self.commit(worker, e, held, now),
        }
    }

    /// The first step of an event: a seeker reads, any other takes its first lock.
    fn open_event(&mut self, worker: u8, e: P::Event) -> Turn
        requires at { WorkerStandsAt self.old.state worker (phase.Event e progress.Open) }
        ensures { IsTurned (P.means self.old.parts) (P.orders self.old.parts) self.old worker result self.new }
    {
        let Some(held) = self.parts.fixed(&e) else {
            return self.seek(worker, e);
        };
        self.take_first(worker, e, &held)
    }

    /// The first step of an event that doesn't seek: it takes the first of these locks.
    fn take_first(&mut self, worker: u8, e: P::Event, held: &HeldLocks) -> Turn
        requires at { WorkerStandsAt self.old.state worker (phase.Event e progress.Open) }
        requires fixed { Some held.now ≡ fixed_by ((P.means self.old.parts).needs e) }
        ensures { IsTurned (P.means self.old.parts) (P.orders self.old.parts) self.old worker result self.new }
    {
        match held {
            HeldLocks::One(a) => {
                let held = HeldLocks::One(*a);
                self.take(worker, *a, Phase::Event(e, Progress::Locked(held)))
            }
            HeldLocks::Two(a, b) => {
                self.take(worker, *a, Phase::Event(e, Progress::Half(*a, *b)))
            }
        }
    }

    /// The first step of a seeking event.
    fn seek(&mut self, worker: u8, e: P::Event) -> Turn
        requires at { WorkerStandsAt self.old.state worker (phase.Event e progress.Open) }
        requires seeks { None ≡ fixed_by ((P.means self.old.parts).needs e) }
        ensures { IsTurned (P.means self.old.parts) (P.orders self.old.parts) self.old worker result self.new }
    {
        let Some(t) = self.parts.sought(&e) else {
            unreachable!()
        };
        self.first_read(worker, e, t)
    }

    /// A seeker's first read of the thread's word.
    fn first_read(&mut self, worker: u8, e: P::Event, t: ThreadId) -> Turn
        requires at { WorkerStandsAt self.old.state worker (phase.Event e progress.Open) }
        requires sought { (P.means self.old.parts).needs e ≡ lock_of t }
        ensures { IsTurned (P.means self.old.parts) (P.orders self.old.parts) self.old worker result self.new }
    {
        let word = self.words[t.0 as usize];
        match word {
            Word::Blocked => Turn::Blocked { thread: t },
            Word::Lock(l) => {
                let seat = &mut self.seats[worker as usize];
                seat.phase = Phase::Event(e, Progress::Named(t, l));
                Turn::Moved(StepDone::Read(t, Word::Lock(l)))
            }
        }
    }

    /// A seeker's second read of the thread's word, with the lock that the first read named.
    fn second_read(&mut self, worker: u8, e: P::Event, t: ThreadId, l: LockId) -> Turn
        requires at { WorkerStandsAt self.old.state worker (phase.Event e (progress.Taken t l)) }
        ensures { IsTurned (P.means self.old.parts) (P.orders self.old.parts) self.old worker result self.new }
    {
        let word = self.words[t.0 as usize];
        let there = after_second_read(e, &word, l);
        let seat = &mut self.seats[worker as usize];
        seat.phase = there;
        Turn::Moved(StepDone::Read(t, word))
    }

    /// Takes a lock, if it is free.
    fn take(&mut self, worker: u8, l: LockId, there: Phase<P::Event, P::Reply>) -> Turn
        requires next { TakesNext (P.means self.old.parts) (P.orders self.old.parts) self.old.state worker l there }
        ensures { IsTurned (P.means self.old.parts) (P.orders self.old.parts) self.old worker result self.new }
    {
        let word = self.locks[l.0 as usize];
        match word {
            Some(holder) => Turn::Lost { lock: l, holder },
            None => {
                self.locks[l.0 as usize] = Some(worker);
                let seat = &mut self.seats[worker as usize];
                seat.phase = there;
                Turn::Moved(StepDone::Take(l))
            }
        }
    }

    /// Gives a lock back.
    fn release(&mut self, worker: u8, l: LockId, there: Phase<P::Event, P::Reply>) -> Turn
        requires next { ReleasesNext (P.means self.old.parts) (P.orders self.old.parts) self.old.state worker l there }
        ensures { IsTurned (P.means self.old.parts) (P.orders self.old.parts) self.old worker result self.new }
    {
        self.locks[l.0 as usize] = None;
        let seat = &mut self.seats[worker as usize];
        seat.phase = there;
        Turn::Moved(StepDone::Release(l))
    }

    /// Reads now, under all locks of the event.
    fn read_now(&mut self, worker: u8, e: P::Event, held: HeldLocks) -> Turn
        requires at { WorkerStandsAt self.old.state worker (phase.Event e (progress.Locked held)) }
        ensures { IsTurned (P.means self.old.parts) (P.orders self.old.parts) self.old worker result self.new }
    {
        let now = self.time;
        let seat = &mut self.seats[worker as usize];
        seat.phase = Phase::Event(e, Progress::Timed(held, now));
        Turn::Moved(StepDone::Now(now))
    }

    /// Lets the event take effect, at the time that was read.
    fn commit(&mut self, worker: u8, e: P::Event, held: HeldLocks, now: u64) -> Turn
        requires at { WorkerStandsAt self.old.state worker (phase.Event e (progress.Timed held now)) }
        ensures { IsTurned (P.means self.old.parts) (P.orders self.old.parts) self.old worker result self.new }
    {
        let seat = &mut self.seats[worker as usize];
        let reply = act(&self.parts, seat, &mut self.values, e, &held, now);
        self.ticket += 1;
        self.history.push_reserved(Entry {
            worker,
            locks: held,
            now,
            event: e,
            reply,
        });
        Turn::Moved(StepDone::Commit(self.ticket))
    }

    /// The next step behind a commit: the pending change, or else the lock that was taken last.
    fn leave(&mut self, worker: u8, reply: P::Reply, now: u64, held: HeldLocks) -> Turn
        requires at { WorkerStandsAt self.old.state worker (phase.Leaving reply now held) }
        ensures { IsTurned (P.means self.old.parts) (P.orders self.old.parts) self.old worker result self.new }
    {
        let pending = self.seats[worker as usize].pending;
        if let Some(change) = pending {
            return self.store(worker, change);
        }
        match held {
            HeldLocks::One(a) => self.release_last(worker, a, reply, now),
            HeldLocks::Two(a, b) => {
                self.release(worker, b, Phase::Leaving(reply, now, HeldLocks::One(a)))
            }
        }
    }

    /// Stores the pending change in its thread's word.
    fn store(&mut self, worker: u8, change: WordChange) -> Turn
        requires pends { (p : Seat P.Own P.Event P.Reply) × (slice_get self.old.state.seats worker ≡ Some p) × (p.pending ≡ Some change) }
        ensures { IsTurned (P.means self.old.parts) (P.orders self.old.parts) self.old worker result self.new }
    {
        let seat = &mut self.seats[worker as usize];
        seat.pending = None;
        match change {
            WordChange::Block(t) => {
                self.words[t.0 as usize] = Word::Blocked;
                Turn::Moved(StepDone::Block(t))
            }
            WordChange::Point(t, l) => {
                self.words[t.0 as usize] = Word::Lock(l);
                Turn::Moved(StepDone::Point(t, l))
            }
        }
    }

    /// Gives the last lock back, and goes on to the worker's next item.
    fn release_last(&mut self, worker: u8, a: LockId, reply: P::Reply, now: u64) -> Turn
        requires at { WorkerStandsAt self.old.state worker (phase.Leaving reply now (One a)) }
        requires calm { pending self.old.state worker ≡ None }
        ensures { IsTurned (P.means self.old.parts) (P.orders self.old.parts) self.old worker result self.new }
    {
        self.locks[a.0 as usize] = None;
        let seat = &mut self.seats[worker as usize];
        go_on(&self.parts, worker, seat, Some((reply, now)));
        Turn::Moved(StepDone::Release(a))
    }
}

/// Where a seeker stands that read this word of the thread again, and holds this lock.
fn after_second_read<E: Copy, R: Copy>(e: E, word: &Word, l: LockId) -> Phase<E, R>
    ensures { result ≡ phase.Event e (if is_named word.now l then progress.Locked (One l) else progress.Stale l) }
{
    match word {
        Word::Blocked => Phase::Event(e, Progress::Stale(l)),
        Word::Lock(k) => {
            if *k == l {
                Phase::Event(e, Progress::Locked(HeldLocks::One(l)))
            } else {
                Phase::Event(e, Progress::Stale(l))
            }
        }
    }
}
