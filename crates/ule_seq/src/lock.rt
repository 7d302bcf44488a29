ghost use Rattle.std.specs.Prelude.{◌≡◌, ℕ, ◌%◌, ◌<◌, ◌≤◌, ◌^◌, not, ◌==◌, Option, None, Some, IfSome, IsNone, IsSome, IsTrue, is_some};
ghost use Rattle.std.specs.Option.{option_map};
ghost use Rattle.ule_model.specs.CpuChange.{value_changed};
ghost use Rattle.ule_model.specs.CpuValue.{IsNoEarlier, thread_in, value_taken};
ghost use Rattle.ule_model.specs.LockConditions.{CanStepAt, CanStepChain, CanStepLimbo, CanStepQueue, IsTime};
ghost use Rattle.ule_model.specs.LockValue.{found_on, has_under, line_under, standing_line};
ghost use Rattle.ule_model.specs.Actions.{gone_answer, unborn_answer};
ghost use Rattle.ule_model.specs.Step.{chain_step, limbo_step, lock_step, queue_step};
ghost use Rattle.ule_seq.specs.Calls.{chain_bedded, chain_changed, chain_woken, limbo_buried, limbo_changed, limbo_changed_unborn, limbo_hatched, limbo_returned, not_asleep, queue_dropped, queue_exited, queue_forked, queue_landed};
ghost use Rattle.ule_model.specs.LockValue as value;
ghost use Rattle.ule_model.specs.Places.{lock_of};
ghost use Rattle.ule_score.specs.Changes.{IsBy, ran, sleeps};
ghost use Rattle.ule_score.specs.Charges.{HasShortRun};
ghost use Rattle.ule_score.specs.Settings.{are_settings};
ghost use Rattle.ule_score.specs.declared.record.ThreadRecord.{ThreadRecord};
ghost use Rattle.ule_threads.specs.declared.standing.Standing.{Standing};
ghost use Rattle.ule_seq.specs.Outcomes.{queue_line};
ghost use Rattle.ule_seq.specs.StepStates.{place_under};
ghost use Rattle.ule_sleep.specs.Chain.{standing_in};
ghost use Rattle.ule_sleep.specs.Limbo.{HasUnborn};
ghost use Rattle.ule_types.specs.declared.event.Reply.TheVariants.{Seen};
ghost use Rattle.ule_tdq.specs.Replies.{changed_reply, reply_of, ticked_reply};

use crate::hand::Hand;
use std::marker::Model;
use ule_prio::{Cpu, LockId, Priority, ThreadId};
use ule_score::change::after_sleep;
use ule_score::{Change, Changed, CpuLine, Place, Settings};
use ule_sleep::{Chain, Limbo};
use ule_tdq::{Clocked, SwitchOut, Tdq, line_of};
use ule_threads::Standing;
use ule_topo::Summary;
use ule_types::{Event, Reply, ThreadLine};

/// What one lock guards.
#[derive(Drop)]
pub struct Guarded {
    pub(crate) contents: Contents,
}

/// The kinds of what one lock guards.
#[derive(Drop)]
pub(crate) enum Contents {
    /// The queue lock of a CPU guards the CPU, after `struct tdq`.
    Queue(Tdq),
    /// The lock of a sleep chain guards its sleepers, after `struct sleepqueue_chain`.
    Chain(Chain),
    /// Limbo's lock guards the threads that are unborn or gone.
    Limbo(Limbo),
    /// The queue lock of a CPU that there isn't guards nothing.
    Nothing,
}

impl Model for Guarded {
    ghost use Rattle.ule_model.specs.LockValue.{LockValue};
    ghost use Rattle.ule_seq.specs.Locks.{contents_value};

    ghost Value = { LockValue };

    ghost view = { λ g. contents_value g.contents };
}

/// Performs an event of a worker on the value under its lock and on the worker's hand, and on
/// nothing else: the step of the scheduler for an event under one lock. `now` is in hz ticks since
/// the boot, 20,000 to 2^36 - 1.
pub fn step_at(
    settings: &Settings,
    worker: u8,
    hand: &mut Hand,
    guarded: &mut Guarded,
    e: &Event,
    now: u64,
) -> Reply
    requires settings { IsTrue (are_settings settings.now) }
    requires step { CanStepAt guarded.old hand.old e.now now }
    ensures hand { hand.new ≡ (lock_step settings.now worker e.now now hand.old guarded.old).hand }
    ensures value { guarded.new ≡ (lock_step settings.now worker e.now now hand.old guarded.old).value }
    ensures reply { result ≡ (lock_step settings.now worker e.now now hand.old guarded.old).reply }
{
    match &mut guarded.contents {
        Contents::Queue(tdq) => step_queue(worker, hand, tdq, e, now),
        Contents::Chain(chain) => step_chain(settings, hand, chain, e, now),
        Contents::Limbo(limbo) => step_limbo(settings, hand, limbo, e),
        Contents::Nothing => Reply::Nothing,
    }
}

/// An event on a CPU.
fn step_queue(worker: u8, hand: &mut Hand, tdq: &mut Tdq, e: &Event, now: u64) -> Reply
    requires { CanStepQueue tdq.old hand.old e.now now }
    ensures hand { hand.new ≡ (queue_step worker e.now now hand.old tdq.old).hand }
    ensures value { value.queue tdq.new ≡ (queue_step worker e.now now hand.old tdq.old).value }
    ensures reply { result ≡ (queue_step worker e.now now hand.old tdq.old).reply }
{
    match *e {
        Event::Tick(_) => ticked_reply(tdq.clock(now)),
        Event::Switch(_, why) => reply_of(tdq.switch(why, now)),
        Event::Drop(..) => drop_current(hand, tdq, now),
        Event::Wake(t) => not_asleep(found_on(tdq, t)),
        Event::Look(_) => seen_reply(tdq.summary()),
        Event::Land(_, c) => land(worker, c, hand, tdq),
        Event::Lend(t, p) => change_on(worker, tdq, t, Change::Lend(p)),
        Event::Unlend(t) => change_on(worker, tdq, t, Change::Unlend),
        Event::Renice(t, nice) => change_on(worker, tdq, t, Change::Renice(nice)),
        Event::Fork(..) => fork_in_hand(hand, tdq, now),
        Event::Exit(_) => exit_current(hand, tdq, now),
        Event::Inherit(t, run) => change_on(worker, tdq, t, Change::Inherit(run)),
        Event::Bed(..) | Event::Move(..) | Event::Hatch(_) | Event::Return(_) | Event::Bury(_) =>
            Reply::Nothing,
    }
}

/// The current thread of a CPU goes to the hand.
fn drop_current(hand: &mut Hand, tdq: &mut Tdq, now: u64) -> Reply
    requires begun { 20000 ≤ now }
    requires bounded { now < 2 ^ 36 }
    requires in_time { IsNoEarlier tdq.old now }
    ensures hand { hand.new ≡ (queue_dropped hand.old (value_taken sleeps now tdq.old)).hand }
    ensures value { value.queue tdq.new ≡ (queue_dropped hand.old (value_taken sleeps now tdq.old)).value }
    ensures reply { result ≡ (queue_dropped hand.old (value_taken sleeps now tdq.old)).reply }
{
    let Some((out, into)) = tdq.take_current(now, true) else {
        return Reply::Nothing;
    };
    let t = out.id;
    hand.put(out);
    Reply::Dropped(t, into)
}

/// The current thread of a CPU goes to the hand, to be buried.
fn exit_current(hand: &mut Hand, tdq: &mut Tdq, now: u64) -> Reply
    requires begun { 20000 ≤ now }
    requires bounded { now < 2 ^ 36 }
    requires in_time { IsNoEarlier tdq.old now }
    ensures hand { hand.new ≡ (queue_exited hand.old (value_taken ran now tdq.old)).hand }
    ensures value { value.queue tdq.new ≡ (queue_exited hand.old (value_taken ran now tdq.old)).value }
    ensures reply { result ≡ (queue_exited hand.old (value_taken ran now tdq.old)).reply }
{
    let Some((out, into)) = tdq.take_current(now, false) else {
        return Reply::Nothing;
    };
    let reply = Reply::Exited(out.id, into, out.parent, out.hist.run);
    hand.put(out);
    reply
}

/// The thread in the hand becomes the child of a CPU's current thread.
fn fork_in_hand(hand: &mut Hand, tdq: &mut Tdq, now: u64) -> Reply
    requires begun { 20000 ≤ now }
    requires bounded { now < 2 ^ 36 }
    requires in_time { IsNoEarlier tdq.old now }
    ensures hand { hand.new ≡ (queue_forked now hand.old tdq.old).hand }
    ensures value { value.queue tdq.new ≡ (queue_forked now hand.old tdq.old).value }
    ensures reply { result ≡ (queue_forked now hand.old tdq.old).reply }
{
    let Some(mut child) = hand.take() else {
        return Reply::Nothing;
    };
    let parent = tdq.fork_from(&mut child, now);
    hand.put(child);
    match parent {
        None => Reply::Nothing,
        Some(parent) => Reply::Forked(parent, child.priority),
    }
}

/// A change that can move the priority of a thread on a CPU, asked by a worker.
fn change_on(worker: u8, tdq: &mut Tdq, t: ThreadId, change: Change) -> Reply
    requires { HasShortRun change }
    ensures value { tdq.new ≡ (value_changed t change (not (worker == tdq.old.cpu)) tdq.old).0 }
    ensures reply { result ≡ (value_changed t change (not (worker == tdq.old.cpu)) tdq.old).1 }
{
    if tdq.thread(t).is_none() {
        return Reply::Nothing;
    }
    let remote = worker != tdq.cpu().0;
    changed_reply(tdq.change(t, change, remote))
}

/// The thread in the hand comes to a CPU.
fn land(worker: u8, c: Cpu, hand: &mut Hand, tdq: &mut Tdq) -> Reply
    requires absent { IfSome hand.old (λ r. thread_in tdq.old r.id ≡ None) }
    requires cpu { tdq.old.cpu ≡ c }
    ensures hand { hand.new ≡ (queue_landed worker hand.old tdq.old).hand }
    ensures value { value.queue tdq.new ≡ (queue_landed worker hand.old tdq.old).value }
    ensures reply { result ≡ (queue_landed worker hand.old tdq.old).reply }
{
    let Some(r) = hand.take() else {
        return Reply::Nothing;
    };
    let arrival = tdq.add(r, worker != c.0);
    Reply::Landed(arrival.kind, arrival.bucket, arrival.marked)
}

/// An event on a sleep chain.
fn step_chain(settings: &Settings, hand: &mut Hand, chain: &mut Chain, e: &Event, now: u64) -> Reply
    requires settings { IsTrue (are_settings settings.now) }
    requires step { CanStepChain chain.old hand.old e.now now }
    ensures hand { (worker : ℕ) → hand.new ≡ (chain_step settings.now worker e.now now hand.old chain.old).hand }
    ensures value { (worker : ℕ) → value.chain chain.new ≡ (chain_step settings.now worker e.now now hand.old chain.old).value }
    ensures reply { (worker : ℕ) → result ≡ (chain_step settings.now worker e.now now hand.old chain.old).reply }
{
    match *e {
        Event::Bed(_, channel) => bed(hand, chain, channel),
        Event::Wake(t) => wake(settings, hand, chain, t, now),
        Event::Lend(t, p) => change_asleep(settings, chain, t, Change::Lend(p)),
        Event::Unlend(t) => change_asleep(settings, chain, t, Change::Unlend),
        Event::Renice(t, nice) => change_asleep(settings, chain, t, Change::Renice(nice)),
        Event::Inherit(t, run) => change_asleep(settings, chain, t, Change::Inherit(run)),
        Event::Tick(_)
        | Event::Switch(..)
        | Event::Drop(..)
        | Event::Look(_)
        | Event::Land(..)
        | Event::Move(..)
        | Event::Hatch(_)
        | Event::Fork(..)
        | Event::Return(_)
        | Event::Exit(_)
        | Event::Bury(_) => Reply::Nothing,
    }
}

/// The thread in the hand falls asleep on a channel of a chain.
fn bed(hand: &mut Hand, chain: &mut Chain, channel: u16) -> Reply
    requires absent { IfSome hand.old (λ r. standing_in chain.old.slots r.id ≡ None) }
    requires chain { channel % 8 ≡ chain.old.number }
    ensures hand { hand.new ≡ (chain_bedded channel hand.old chain.old).hand }
    ensures value { value.chain chain.new ≡ (chain_bedded channel hand.old chain.old).value }
    ensures reply { result ≡ (chain_bedded channel hand.old chain.old).reply }
{
    let Some(r) = hand.take() else {
        return Reply::Nothing;
    };
    chain.bed(r, channel);
    Reply::Bedded
}

/// A thread that sleeps on a chain goes to the hand.
fn wake(settings: &Settings, hand: &mut Hand, chain: &mut Chain, t: ThreadId, now: u64) -> Reply
    requires settings { IsTrue (are_settings settings.now) }
    requires time { IsTime now }
    requires in_time { IfSome (standing_in chain.old.slots t) (λ s. IsBy now s.thread) }
    ensures hand { hand.new ≡ (chain_woken settings.now now t hand.old (standing_in chain.old.slots t) chain.old).hand }
    ensures value { value.chain chain.new ≡ (chain_woken settings.now now t hand.old (standing_in chain.old.slots t) chain.old).value }
    ensures reply { result ≡ (chain_woken settings.now now t hand.old (standing_in chain.old.slots t) chain.old).reply }
{
    let Some(_) = chain.standing(t) else {
        return Reply::Nothing;
    };
    let r = after_sleep(settings, now, chain.take_out(t));
    let reply = Reply::Woken(r.priority, r.bound, r.last, r.last_run);
    hand.put(r);
    reply
}

/// A change that can move the priority of a thread that sleeps on a chain.
fn change_asleep(settings: &Settings, chain: &mut Chain, t: ThreadId, change: Change) -> Reply
    requires settings { IsTrue (are_settings settings.now) }
    requires run { HasShortRun change }
    ensures value { (hand : Option ThreadRecord) → value.chain chain.new ≡ (chain_changed settings.now change t hand (standing_in chain.old.slots t) chain.old).value }
    ensures reply { (hand : Option ThreadRecord) → result ≡ (chain_changed settings.now change t hand (standing_in chain.old.slots t) chain.old).reply }
{
    if chain.standing(t).is_none() {
        return Reply::Nothing;
    }
    changed_reply(chain.change(t, change, settings))
}

/// An event on limbo.
fn step_limbo(settings: &Settings, hand: &mut Hand, limbo: &mut Limbo, e: &Event) -> Reply
    requires settings { IsTrue (are_settings settings.now) }
    requires step { CanStepLimbo limbo.old hand.old e.now }
    ensures hand { (worker now : ℕ) → hand.new ≡ (limbo_step settings.now worker e.now now hand.old limbo.old).hand }
    ensures value { (worker now : ℕ) → value.limbo limbo.new ≡ (limbo_step settings.now worker e.now now hand.old limbo.old).value }
    ensures reply { (worker now : ℕ) → result ≡ (limbo_step settings.now worker e.now now hand.old limbo.old).reply }
{
    match *e {
        Event::Hatch(t) => hatch(hand, limbo, t),
        Event::Return(_) => put_back(hand, limbo),
        Event::Bury(_) => bury(hand, limbo),
        Event::Wake(t) => not_asleep(limbo.standing(t)),
        Event::Lend(t, p) => change_still(settings, limbo, t, Change::Lend(p)),
        Event::Unlend(t) => change_still(settings, limbo, t, Change::Unlend),
        Event::Renice(t, nice) => change_still(settings, limbo, t, Change::Renice(nice)),
        Event::Inherit(t, run) => change_still(settings, limbo, t, Change::Inherit(run)),
        Event::Tick(_)
        | Event::Switch(..)
        | Event::Drop(..)
        | Event::Bed(..)
        | Event::Look(_)
        | Event::Land(..)
        | Event::Move(..)
        | Event::Fork(..)
        | Event::Exit(_) => Reply::Nothing,
    }
}

/// An unborn thread goes to the hand.
fn hatch(hand: &mut Hand, limbo: &mut Limbo, t: ThreadId) -> Reply
    requires { HasUnborn limbo.old t }
    ensures hand { hand.new ≡ (limbo_hatched t hand.old (standing_in limbo.old.slots t) limbo.old).hand }
    ensures value { value.limbo limbo.new ≡ (limbo_hatched t hand.old (standing_in limbo.old.slots t) limbo.old).value }
    ensures reply { result ≡ (limbo_hatched t hand.old (standing_in limbo.old.slots t) limbo.old).reply }
{
    hand.put(limbo.hatch(t));
    Reply::Hatched
}

/// The thread in the hand is unborn again.
fn put_back(hand: &mut Hand, limbo: &mut Limbo) -> Reply
    requires { IfSome hand.old (λ r. standing_in limbo.old.slots r.id ≡ None) }
    ensures hand { hand.new ≡ (limbo_returned hand.old limbo.old).hand }
    ensures value { value.limbo limbo.new ≡ (limbo_returned hand.old limbo.old).value }
    ensures reply { result ≡ (limbo_returned hand.old limbo.old).reply }
{
    let Some(r) = hand.take() else {
        return Reply::Nothing;
    };
    limbo.unborn(r);
    Reply::Returned
}

/// The thread in the hand is gone.
fn bury(hand: &mut Hand, limbo: &mut Limbo) -> Reply
    requires { IfSome hand.old (λ r. standing_in limbo.old.slots r.id ≡ None) }
    ensures hand { hand.new ≡ (limbo_buried hand.old limbo.old).hand }
    ensures value { value.limbo limbo.new ≡ (limbo_buried hand.old limbo.old).value }
    ensures reply { result ≡ (limbo_buried hand.old limbo.old).reply }
{
    let Some(r) = hand.take() else {
        return Reply::Nothing;
    };
    limbo.bury(r);
    Reply::Buried
}

/// A change that can move the priority of a thread in limbo.
fn change_still(settings: &Settings, limbo: &mut Limbo, t: ThreadId, change: Change) -> Reply
    requires settings { IsTrue (are_settings settings.now) }
    requires run { HasShortRun change }
    ensures value { (hand : Option ThreadRecord) → value.limbo limbo.new ≡ (limbo_changed settings.now change t hand (standing_in limbo.old.slots t) limbo.old).value }
    ensures reply { (hand : Option ThreadRecord) → result ≡ (limbo_changed settings.now change t hand (standing_in limbo.old.slots t) limbo.old).reply }
{
    let Some(found) = limbo.standing(t) else {
        return Reply::Nothing;
    };
    match found.place {
        Place::Unborn => change_unborn(settings, limbo, t, change),
        Place::Gone => gone_answer(&change),
        Place::Running(_) | Place::Queued { .. } | Place::Asleep(_) | Place::Hand(_) => {
            Reply::Nothing
        }
    }
}

/// A change that can move the priority of an unborn thread, unless it is refused.
fn change_unborn(settings: &Settings, limbo: &mut Limbo, t: ThreadId, change: Change) -> Reply
    requires settings { IsTrue (are_settings settings.now) }
    requires run { HasShortRun change }
    requires present { IsSome (standing_in limbo.old.slots t) }
    ensures value { (hand : Option ThreadRecord) (s : Standing) → standing_in limbo.old.slots t ≡ Some s
        → value.limbo limbo.new ≡ (limbo_changed_unborn (unborn_answer change) settings.now change t hand s.thread limbo.old).value }
    ensures reply { (hand : Option ThreadRecord) (s : Standing) → standing_in limbo.old.slots t ≡ Some s
        → result ≡ (limbo_changed_unborn (unborn_answer change) settings.now change t hand s.thread limbo.old).reply }
{
    if let Some(refusal) = unborn_answer(&change) {
        return refusal;
    }
    changed_reply(limbo.change(t, change, settings))
}

/// What a change answers of a thread that is gone.
fn gone_answer(change: &Change) -> Reply
    ensures { result ≡ gone_answer change.now }
{
    match *change {
        Change::Lend(_) | Change::Unlend | Change::Renice(_) => Reply::NotAllowed(Place::Gone),
        Change::Inherit(_) => Reply::ParentGone,
    }
}

/// What a change answers of an unborn thread where none is made.
fn unborn_answer(change: &Change) -> Option<Reply>
    ensures { result ≡ unborn_answer change.now }
{
    match *change {
        Change::Lend(_) | Change::Unlend | Change::Renice(_) => {
            Some(Reply::NotAllowed(Place::Unborn))
        }
        Change::Inherit(_) => None,
    }
}

/// The reply of a change that was made.
fn changed_reply(changed: Changed) -> Reply
    ensures { result ≡ changed_reply changed }
{
    Reply::Changed(changed.priority, changed.requeued, changed.marked)
}

/// A thread with its place, if it is on a CPU.
fn found_on(tdq: &Tdq, t: ThreadId) -> Option<Standing>
    ensures { result ≡ found_on tdq.now t }
{
    let thread = tdq.thread(t)?;
    let place = tdq.place_of(t)?;
    Some(Standing { thread, place })
}

/// The reply of a wake of a thread that doesn't sleep.
fn not_asleep(found: Option<Standing>) -> Reply
    ensures { result ≡ not_asleep found }
{
    match found {
        None => Reply::Nothing,
        Some(found) => Reply::NotAsleep(found.place),
    }
}

/// The reply of a switch.
fn reply_of(out: SwitchOut) -> Reply
    ensures { result ≡ reply_of out }
{
    match out {
        SwitchOut::Unmarked => Reply::Unmarked,
        SwitchOut::Nothing => Reply::Nothing,
        SwitchOut::Switched {
            out,
            into,
            preempted,
        } => Reply::Switched(out, into, preempted),
    }
}

/// The reply of a look.
fn seen_reply(seen: Summary) -> Reply
    ensures { result ≡ Seen seen.load seen.movable seen.lowpri }
{
    Reply::Seen(
        u64::from(seen.load),
        u64::from(seen.movable),
        Priority(seen.lowpri),
    )
}

/// The reply of a tick.
fn ticked_reply(out: Clocked) -> Reply
    ensures { result ≡ ticked_reply out }
{
    Reply::Ticked(out.cur, out.due, out.ended)
}

/// The lock of sleep chain 0; that of chain k is k numbers on.
pub const FIRST_CHAIN_LOCK: u8 = 16;

/// The lock of unborn and gone threads.
pub const LIMBO_LOCK: u8 = 24;

/// How many locks there are.
pub const LOCKS: u8 = 25;

/// The lock that a place lies under; none for a hand.
pub fn lock_of(place: Place) -> Option<LockId>
    ensures { result ≡ lock_of place }
{
    match place {
        Place::Running(c) => Some(LockId(c.0)),
        Place::Queued { cpu, .. } => Some(LockId(cpu.0)),
        Place::Asleep(channel) => Some(LockId(FIRST_CHAIN_LOCK + (channel % 8) as u8)),
        Place::Unborn | Place::Gone => Some(LockId(LIMBO_LOCK)),
        Place::Hand(_) => None,
    }
}

/// What a trace tells of a thread that stands on no CPU.
fn standing_line(found: Option<Standing>, t: ThreadId) -> Option<ThreadLine>
    requires { IfSome found (λ s. s.thread.id ≡ t) }
    ensures line { result ≡ option_map standing_line found }
    ensures number { IfSome result (λ l. l.id ≡ t) }
{
    match found {
        Some(s) => Some(line_of(&s.thread, s.place, 0, lock_of(s.place))),
        None => None,
    }
}

/// Where a thread stands that stands on no CPU.
fn standing_place(found: Option<Standing>) -> Option<Place>
    ensures { result ≡ option_map (λ s. s.place) found }
{
    match found {
        Some(s) => Some(s.place),
        None => None,
    }
}

impl Guarded {
    /// What the queue lock of a CPU guards.
    pub fn queue(tdq: Tdq) -> Guarded
        ensures { result ≡ value.queue tdq }
    {
        Guarded {
            contents: Contents::Queue(tdq),
        }
    }

    /// What the lock of a sleep chain guards.
    pub fn chain(chain: Chain) -> Guarded
        ensures { result ≡ value.chain chain }
    {
        Guarded {
            contents: Contents::Chain(chain),
        }
    }

    /// What limbo's lock guards.
    pub fn limbo(limbo: Limbo) -> Guarded
        ensures { result ≡ value.limbo limbo }
    {
        Guarded {
            contents: Contents::Limbo(limbo),
        }
    }

    /// What the queue lock of a CPU guards that there isn't.
    pub fn nothing() -> Guarded
        ensures { result ≡ value.nothing }
    {
        Guarded {
            contents: Contents::Nothing,
        }
    }

    /// Whether a thread is under this lock.
    pub fn has(&self, t: ThreadId) -> bool
        ensures { result ≡ has_under self.now t }
    {
        match &self.contents {
            Contents::Queue(tdq) => tdq.thread(t).is_some(),
            Contents::Chain(chain) => chain.standing(t).is_some(),
            Contents::Limbo(limbo) => limbo.standing(t).is_some(),
            Contents::Nothing => false,
        }
    }

    /// Where a thread that is under this lock runs, waits, sleeps or rests.
    pub fn place_of(&self, t: ThreadId) -> Option<Place>
        ensures place { result ≡ place_under self.now t }
        ensures found { is_some result ≡ has_under self.now t }
    {
        match &self.contents {
            Contents::Queue(tdq) => tdq.place_of(t),
            Contents::Chain(chain) => standing_place(chain.standing(t)),
            Contents::Limbo(limbo) => standing_place(limbo.standing(t)),
            Contents::Nothing => None,
        }
    }

    /// What a trace tells of a thread that is under this lock.
    pub fn line(&self, t: ThreadId) -> Option<ThreadLine>
        ensures line { result ≡ line_under self.now t }
        ensures number { IfSome result (λ l. l.id ≡ t) }
    {
        match &self.contents {
            Contents::Queue(tdq) => tdq.thread_line(t),
            Contents::Chain(chain) => standing_line(chain.standing(t), t),
            Contents::Limbo(limbo) => standing_line(limbo.standing(t), t),
            Contents::Nothing => None,
        }
    }

    /// The CPU that this lock guards, if it guards one.
    pub fn as_queue(&self) -> Option<&Tdq>
        ensures found { IfSome result (λ q. self.now ≡ value.queue q.now) }
        ensures none { IsNone result → queue_line self.now ≡ None }
    {
        match &self.contents {
            Contents::Queue(tdq) => Some(tdq),
            Contents::Chain(_) | Contents::Limbo(_) | Contents::Nothing => None,
        }
    }

    /// What a trace tells of the CPU that this lock guards, if it guards one.
    pub fn cpu_line(&self) -> Option<CpuLine>
        ensures { result ≡ queue_line self.now }
    {
        match &self.contents {
            Contents::Queue(tdq) => Some(tdq.line()),
            Contents::Chain(_) | Contents::Limbo(_) | Contents::Nothing => None,
        }
    }
}
