ghost use Rattle.std.specs.Prelude.{◌≡◌, ℕ, None, IfSome};
ghost use Rattle.ule_model.specs.Actions.{is_refused, refused_action};
ghost use Rattle.ule_model.specs.ActionStep.{seen_in};
ghost use Rattle.ule_model.specs.CpuValue.{thread_in};
ghost use Rattle.ule_model.specs.LockConditions.{CanStepPair, CanStepQueues};
ghost use Rattle.ule_model.specs.LockValue as value;
ghost use Rattle.ule_model.specs.Step.{pair_step};
ghost use Rattle.ule_seq.specs.Calls.{queue_taken_in, queues_moved};

use crate::hand::Hand;
use crate::lock::{Contents, Guarded};
use ule_tdq::Tdq;
use ule_types::{Event, MoveWhy, Reply};

/// Performs an event of a worker on the values under the two locks that it names, in the order in
/// which it names them, and on the worker's hand, and on nothing else: the step of the scheduler for
/// an event under two locks. It notes no time.
pub fn step_pair_at(
    worker: u8,
    hand: &mut Hand,
    from: &mut Guarded,
    to: &mut Guarded,
    e: &Event,
) -> Reply
    requires { CanStepPair from.old to.old hand.old }
    ensures hand { (now : ℕ) → hand.new ≡ (pair_step worker e.now now hand.old from.old to.old).hand }
    ensures from { (now : ℕ) → from.new ≡ (pair_step worker e.now now hand.old from.old to.old).from }
    ensures to { (now : ℕ) → to.new ≡ (pair_step worker e.now now hand.old from.old to.old).to }
    ensures reply { (now : ℕ) → result ≡ (pair_step worker e.now now hand.old from.old to.old).reply }
{
    match &mut from.contents {
        Contents::Queue(giver) => match &mut to.contents {
            Contents::Queue(taker) => step_queues(worker, hand, giver, taker, e),
            Contents::Chain(_) | Contents::Limbo(_) | Contents::Nothing => Reply::Nothing,
        },
        Contents::Chain(_) | Contents::Limbo(_) | Contents::Nothing => Reply::Nothing,
    }
}

/// An event on two CPUs.
fn step_queues(worker: u8, hand: &mut Hand, from: &mut Tdq, to: &mut Tdq, e: &Event) -> Reply
    requires { CanStepQueues from.old to.old hand.old }
    ensures hand { (now : ℕ) → hand.new ≡ (pair_step worker e.now now hand.old (value.queue from.old) (value.queue to.old)).hand }
    ensures from { (now : ℕ) → value.queue from.new ≡ (pair_step worker e.now now hand.old (value.queue from.old) (value.queue to.old)).from }
    ensures to { (now : ℕ) → value.queue to.new ≡ (pair_step worker e.now now hand.old (value.queue from.old) (value.queue to.old)).to }
    ensures reply { (now : ℕ) → result ≡ (pair_step worker e.now now hand.old (value.queue from.old) (value.queue to.old)).reply }
{
    match *e {
        Event::Move(_, _, why) => move_thread(worker, hand, from, to, why),
        Event::Tick(_)
        | Event::Switch(..)
        | Event::Drop(..)
        | Event::Bed(..)
        | Event::Wake(_)
        | Event::Look(_)
        | Event::Land(..)
        | Event::Lend(..)
        | Event::Unlend(_)
        | Event::Renice(..)
        | Event::Hatch(_)
        | Event::Fork(..)
        | Event::Return(_)
        | Event::Exit(_)
        | Event::Bury(_)
        | Event::Inherit(..) => Reply::Nothing,
    }
}

/// The thread that one CPU gives goes through the hand to another CPU, unless the move is refused:
/// then nothing changes. After `tdq_move` and `sched_balance_pair`.
fn move_thread(worker: u8, hand: &mut Hand, from: &mut Tdq, to: &mut Tdq, why: MoveWhy) -> Reply
    requires { CanStepQueues from.old to.old hand.old }
    ensures hand { (now : ℕ) → hand.new ≡ (queues_moved worker now why hand.old from.old to.old).hand }
    ensures from { (now : ℕ) → value.queue from.new ≡ (queues_moved worker now why hand.old from.old to.old).from }
    ensures to { (now : ℕ) → value.queue to.new ≡ (queues_moved worker now why hand.old from.old to.old).to }
    ensures reply { (now : ℕ) → result ≡ (queues_moved worker now why hand.old from.old to.old).reply }
{
    if is_refused(why, from, to) {
        return none_movable(from, to);
    }
    let Some(t) = from.steal() else {
        return none_movable(from, to);
    };
    hand.put(from.rem(t));
    take_in(worker, hand, to)
}

/// The thread in the hand, which left another CPU, comes to this one.
fn take_in(worker: u8, hand: &mut Hand, tdq: &mut Tdq) -> Reply
    requires { IfSome hand.old (λ r. thread_in tdq.old r.id ≡ None) }
    ensures hand { hand.new ≡ (queue_taken_in worker hand.old tdq.old).hand }
    ensures value { value.queue tdq.new ≡ (queue_taken_in worker hand.old tdq.old).value }
    ensures reply { result ≡ (queue_taken_in worker hand.old tdq.old).reply }
{
    let Some(r) = hand.take() else {
        return Reply::Nothing;
    };
    let t = r.id;
    let remote = worker != tdq.cpu().0;
    let arrival = tdq.add(r, remote);
    Reply::Moved(t, arrival.kind, arrival.bucket, arrival.marked)
}

/// Whether a move is refused: a steal is one from a CPU with enough threads to an empty one, a
/// balance one from a greater load to a smaller, and each needs a thread that isn't bound.
fn is_refused(why: MoveWhy, from: &Tdq, to: &Tdq) -> bool
    ensures { (worker now : ℕ) → result ≡ is_refused why (seen_in worker now None from.now) (seen_in worker now None to.now) }
{
    let giver = from.summary();
    let taker = to.summary();
    let threshold = u32::from(from.settings().steal);
    match why {
        MoveWhy::Steal => taker.load > 0 || (giver.load < threshold || giver.movable == 0),
        MoveWhy::Balance => giver.movable == 0 || giver.load <= taker.load,
    }
}

/// The reply of a move that is refused.
fn none_movable(from: &Tdq, to: &Tdq) -> Reply
    ensures { (worker now : ℕ) → result ≡ (refused_action (seen_in worker now None from.now) (seen_in worker now None to.now)).reply }
{
    let giver = from.summary();
    let taker = to.summary();
    Reply::NoneMovable(
        u64::from(giver.load),
        u64::from(giver.movable),
        u64::from(taker.load),
    )
}
