ghost use Rattle.std.specs.Prelude.{◌≡◌, ℕ, ◌+◌, ◌^◌, ◌&&◌, ◌<◌, ◌≤◌, nat_le, length, slice_get, slice_index_or, None, Some, IfOk, IfSome, option_and_then, replicate};
ghost use Rattle.std.specs.List.{AllByRecursion, list_all};
ghost use Rattle.ule_check.specs.JudgeValue.{AreSeats, HasHeard, missing_in, noted_in};
ghost use Rattle.ule_check.specs.Judge as definition;
ghost use Rattle.ule_check.specs.declared.seat.Seat as declared_seat;
ghost use Rattle.ule_check.specs.Seats.{time_behind};
ghost use Rattle.ule_program.specs.Hearing.{CanHear};
ghost use Rattle.ule_seq.specs.Locks.{lock_list};

use crate::fault::{cpu_fault, end_fault, event_fault, hand_fault, reply_fault, thread_fault};
use crate::seat::Seat;
use crate::time::end_of;
use crate::verdicts::{Fault, Verdict};
use std::alloc::Global;
use ule_io::Memory;
use ule_seq::{EventLocks, STARTING_TIME, World};
use ule_types::{Entry, Event, Outcome, Reply, Setup};

/// How many locks there are.
const LOCKS: u8 = 25;

/// What the judge knows behind some entries: the world, where each worker stands, the time of the
/// last entry under each lock, and the time at the end, in hz ticks since the boot.
#[derive(Drop)]
pub struct Judge {
    pub world: World,
    pub seats: Vec<Seat>,
    pub latest: Vec<u64>,
    pub end: u64,
}

/// The rules of time of an entry: whether it is late enough under its locks, and no earlier than its
/// worker's last entry and than its worker's list says, and no later than all lists say.
fn keeps_time(under_locks: bool, seat: &Seat, end: u64, now: u64) -> bool
    requires { 20000 + seat.now.amount < 2 ^ 64 }
    ensures { result ≡ ((under_locks && nat_le seat.now.own now) && nat_le (20000 + seat.now.amount) now && nat_le now end) }
{
    under_locks && seat.own <= now && STARTING_TIME + seat.amount <= now && now <= end
}

/// Whether a time is no earlier than the last under each of these locks.
fn is_late(latest: &[u64], locks: &EventLocks, now: u64) -> bool
    requires { length latest.now ≡ 25 }
    ensures { result ≡ list_all (λ l. nat_le (slice_index_or latest.now l 0) now) (lock_list locks.now) }
{
    match *locks {
        EventLocks::Free => true,
        EventLocks::One(a) => latest[usize::from(a.0)] <= now,
        EventLocks::Two(a, b) => latest[usize::from(a.0)] <= now && latest[usize::from(b.0)] <= now,
    }
}

/// Notes the time of an entry under its locks.
fn note(latest: &mut Vec<u64>, locks: &EventLocks, now: u64)
    requires { length latest.old.items ≡ 25 }
    ensures { latest.new.items ≡ noted_in (lock_list locks.now) now latest.old.items }
{
    match *locks {
        EventLocks::Free => {}
        EventLocks::One(a) => latest[usize::from(a.0)] = now,
        EventLocks::Two(a, b) => {
            latest[usize::from(a.0)] = now;
            latest[usize::from(b.0)] = now;
        }
    }
}

/// The least worker whose program has a further event; none where all are at their ends.
fn missing(seats: &[Seat]) -> Option<Fault>
    requires { length seats.now ≤ 16 }
    ensures { result ≡ missing_in 0 seats.now }
{
    for (worker, seat) in seats.iter().enumerate() {
        if seat.event.is_some() {
            return Some(Fault::Missing(worker as u8));
        }
    }
    None
}

impl Judge {
    ghost use Rattle.ule_check.specs.Ending.{ending_faults};
    ghost use Rattle.ule_check.specs.Judge.{first_fault};
    ghost use Rattle.ule_check.specs.Judged.{judged};
    ghost use Rattle.ule_check.specs.JudgeValue.{HasJudged, HasJudgedFirst, IsJudge, IsTimely};
    ghost use Rattle.ule_model.specs.Events.{locks_of};
    ghost use Rattle.ule_model.specs.Legal.{amount_in_all};
    ghost use Rattle.ule_seq.specs.Outcomes.{IsBare};

    /// The judge of a setup before the first entry.
    pub(crate) fn start(alloc: Global, s: &Setup) -> Result<Judge, Memory>
        ensures { IfOk result (λ v. IsJudge s.now 0 v (definition.judge_at_start s.now)) }
    {
        let world = World::start(alloc, s)?;
        let seats = opening_seats(alloc, s)?;
        let latest = opening_times(alloc)?;
        let end = end_of(s);
        Ok(Judge {
            world,
            seats,
            latest,
            end,
        })
    }

    /// The judgment of a trace by a judge at the start. `lines` is for the final lines that are
    /// expected, and has none yet.
    pub(crate) fn judge(&mut self, s: &Setup, trace: &Outcome, lines: &mut Outcome) -> Verdict
        requires start { IsJudge s.now 0 self.old (definition.judge_at_start s.now) }
        requires bare { IsBare lines.old }
        ensures { result ≡ judged s.now trace.now }
    {
        if let Some(verdict) = self.entries(s, trace) {
            return verdict;
        }
        match self.ending(s, trace, lines) {
            Some(why) => Verdict::Illegal {
                entry: trace.len() + 1,
                why,
            },
            None => Verdict::Legal,
        }
    }

    /// The first fault behind the last entry.
    fn ending(&self, s: &Setup, trace: &Outcome, lines: &mut Outcome) -> Option<Fault>
        requires judge { (n : ℕ) × (j : definition.Judge) × IsJudge s.now n self.now j }
        requires bare { IsBare lines.old }
        ensures { (n : ℕ) (j : definition.Judge) → IsJudge s.now n self.now j → result ≡ first_fault (ending_faults (amount_in_all s.now.scripts) trace.now j) }
    {
        if let Some(why) = missing(&self.seats) {
            return Some(why);
        }
        self.world.finals(self.end, lines);
        if let Some(why) = thread_fault(lines.threads(), trace.threads()) {
            return Some(why);
        }
        if let Some(why) = cpu_fault(lines.cpus(), trace.cpus()) {
            return Some(why);
        }
        end_fault(self.end, trace.end_time())
    }

    /// All entries of a trace, from the start: the verdict where one of them has a fault.
    fn entries(&mut self, s: &Setup, trace: &Outcome) -> Option<Verdict>
        requires start { IsJudge s.now 0 self.old (definition.judge_at_start s.now) }
        ensures illegal { IfSome result (λ v. v ≡ judged s.now trace.now) }
        ensures first { result ≡ None → HasJudgedFirst s.now trace.now (length trace.now.entries) self.new }
    {
        for i in 0..trace.len() {
            if let Some(why) = self.entry(s, *trace.entry(i + 1)) {
                return Some(Verdict::Illegal { entry: i + 1, why });
            }
        }
        None
    }

    /// The first fault of an entry, if it has one; else the judge goes on behind it.
    fn entry(&mut self, s: &Setup, e: Entry) -> Option<Fault>
        requires judge { (n : ℕ) × (j : definition.Judge) × IsJudge s.now n self.old j }
        ensures { (n : ℕ) (j : definition.Judge) → IsJudge s.now n self.old j → HasJudged s.now n j e self.new result }
    {
        match self.due(e.worker) {
            Some(due) => self.judge_due(s, due, e),
            None => Some(Fault::Worker),
        }
    }

    /// The next event of a worker; none where there is no such worker, or its program is at its end.
    fn due(&self, worker: u8) -> Option<Event>
        ensures { result ≡ option_and_then (λ x. x.event) (slice_get self.now.seats.items worker) }
    {
        if usize::from(worker) >= self.seats.len() {
            return None;
        }
        self.seats[usize::from(worker)].event
    }

    /// The first fault of an entry whose worker's next event is this.
    fn judge_due(&mut self, s: &Setup, due: Event, e: Entry) -> Option<Fault>
        requires judge { (n : ℕ) × (j : definition.Judge) × IsJudge s.now n self.old j }
        requires due { option_and_then (λ x. x.event) (slice_get self.old.seats.items e.worker) ≡ Some due }
        ensures { (n : ℕ) (j : definition.Judge) → IsJudge s.now n self.old j → HasJudged s.now n j e self.new result }
    {
        if let Some(why) = event_fault(&due, &e.event) {
            return Some(why);
        }
        if let Some(why) = hand_fault(&self.world, e.worker, &e.event) {
            return Some(why);
        }
        let locks = self.world.locks(&e.event);
        if !self.keeps_time(&locks, e.worker, e.now) {
            return Some(Fault::Now);
        }
        self.perform(s, &locks, e)
    }

    /// Whether the time of an entry under these locks keeps the rules.
    fn keeps_time(&self, locks: &EventLocks, worker: u8, now: u64) -> bool
        requires locks { length self.now.latest.items ≡ 25 }
        requires worker { worker < length self.now.seats.items }
        requires fits { (x : declared_seat.Seat) → slice_get self.now.seats.items worker ≡ Some x → 20000 + x.amount < 2 ^ 64 }
        ensures { (x : declared_seat.Seat) → slice_get self.now.seats.items worker ≡ Some x → result
            ≡ ((list_all (λ l. nat_le (slice_index_or self.now.latest.items l 0) now) (lock_list locks.now) && nat_le x.own now) && nat_le (20000 + x.amount) now && nat_le now self.now.end) }
    {
        let seat = &self.seats[usize::from(worker)];
        keeps_time(is_late(&self.latest, locks, now), seat, self.end, now)
    }

    /// The fault of the reply of an entry that is its worker's next event, seeks no thread in another
    /// worker's hand and is on time; else the judge goes on behind it.
    fn perform(&mut self, s: &Setup, locks: &EventLocks, e: Entry) -> Option<Fault>
        requires timely { (n : ℕ) × (j : definition.Judge) × (d : definition.Due) × IsJudge s.now n self.old j × IsTimely s.now j d e × (lock_list locks.now ≡ locks_of j.world e.event) }
        requires within { AllByRecursion (λ l. l < 25) (lock_list locks.now) }
        ensures { (n : ℕ) (j : definition.Judge) (d : definition.Due) → IsJudge s.now n self.old j → IsTimely s.now j d e → lock_list locks.now ≡ locks_of j.world e.event →
            HasJudged s.now n j e self.new result }
    {
        let reply = self.world.step(e.worker, &e.event, e.now);
        if let Some(why) = reply_fault(&reply, &e.reply) {
            return Some(why);
        }
        hear(&mut self.seats, s, e.worker, e.reply, e.now);
        note(&mut self.latest, locks, e.now);
        None
    }
}

/// A worker's seat behind its entry.
fn hear(seats: &mut Vec<Seat>, s: &Setup, worker: u8, reply: Reply, now: u64)
    requires few { length seats.old.items ≤ 16 }
    requires worker { worker < length seats.old.items }
    requires hears { (x : declared_seat.Seat) → slice_get seats.old.items worker ≡ Some x → CanHear (Some (reply, now)) x.program }
    requires fits { (x : declared_seat.Seat) → slice_get seats.old.items worker ≡ Some x → time_behind s.now worker x (Some (reply, now)) < 2 ^ 64 }
    ensures { HasHeard s.now worker reply now seats.old.items seats.new.items }
{
    seats[usize::from(worker)].hear(s, worker, reply, now);
}

/// The seats of all workers before the first entry.
fn opening_seats(alloc: Global, s: &Setup) -> Result<Vec<Seat>, Memory>
    ensures { IfOk result (λ seats. AreSeats s.now (definition.judge_at_start s.now) seats.items) }
{
    let mut seats = Vec::new(alloc);
    for worker in 0..s.cpus {
        let Ok(()) = seats.push(Seat::start(s, worker)) else {
            return Err(Memory);
        };
    }
    Ok(seats)
}

/// The time of the start under each lock.
fn opening_times(alloc: Global) -> Result<Vec<u64>, Memory>
    ensures { IfOk result (λ times. times.items ≡ replicate 25 20000) }
{
    let mut times = Vec::new(alloc);
    for _lock in 0..LOCKS {
        let Ok(()) = times.push(STARTING_TIME) else {
            return Err(Memory);
        };
    }
    Ok(times)
}
