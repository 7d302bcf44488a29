//! How a worker comes to the next item of its program.
ghost use Rattle.std.specs.Prelude.{◌≡◌, ◌≤◌, ◌<◌, ◌+◌, ◌^◌, ℕ, length, drop, None};
ghost use Rattle.ule_micro.specs.Programs.{CanBegin, CanGoOn};
ghost use Rattle.ule_micro.specs.Turns.{fetch, next_command, seat_going_on, phase_with};

use crate::parts::Parts;
use crate::seat::{Phase, Progress, Seat};
use crate::todo::Todo;

/// Begins the commands of a worker's list one after another, until one has an item.
pub(crate) fn next_item<P: Parts>(
    parts: &P,
    worker: u8,
    own: &mut P::Own,
    begun: &mut u32,
) -> Option<Todo<P::Event>>
    requires worker { worker < length (P.means parts.now).owns }
    requires few { length (P.orders parts.now worker) + 1 < 2 ^ 32 }
    requires begun { begun.old ≤ length (P.orders parts.now worker) }
    requires begins { CanBegin (P.means parts.now) own.old (drop begun.old (P.orders parts.now worker)) }
    ensures item { result ≡ (next_command (P.means parts.now) own.old begun.old (drop begun.old (P.orders parts.now worker))).item }
    ensures own { own.new ≡ (next_command (P.means parts.now) own.old begun.old (drop begun.old (P.orders parts.now worker))).own }
    ensures begun { begun.new ≡ (next_command (P.means parts.now) own.old begun.old (drop begun.old (P.orders parts.now worker))).begun }
{
    loop {
        let Some(order) = parts.order(worker, *begun + 1) else {
            return None;
        };
        parts.begin(own, &order);
        *begun += 1;
        let item = parts.next(own, None);
        if item.is_some() {
            return item;
        }
    }
}

/// Asks for the next item of a worker. `told` is the reply and the time of its last item, if that
/// was an event.
fn fetch_item<P: Parts>(
    parts: &P,
    worker: u8,
    own: &mut P::Own,
    begun: &mut u32,
    told: Option<(P::Reply, u64)>,
) -> Option<Todo<P::Event>>
    requires worker { worker < length (P.means parts.now).owns }
    requires few { length (P.orders parts.now worker) + 1 < 2 ^ 32 }
    requires begun { begun.old ≤ length (P.orders parts.now worker) }
    requires goes_on { CanGoOn (P.means parts.now) own.old told (drop begun.old (P.orders parts.now worker)) }
    ensures item { result ≡ (fetch (P.means parts.now) own.old begun.old told (drop begun.old (P.orders parts.now worker))).item }
    ensures own { own.new ≡ (fetch (P.means parts.now) own.old begun.old told (drop begun.old (P.orders parts.now worker))).own }
    ensures begun { begun.new ≡ (fetch (P.means parts.now) own.old begun.old told (drop begun.old (P.orders parts.now worker))).begun }
{
    match parts.next(own, told) {
        Some(item) => Some(item),
        None => next_item(parts, worker, own, begun),
    }
}

/// Where a worker stands that was given this item, or none.
pub(crate) fn phase_of<E: Copy, R: Copy>(item: Option<Todo<E>>) -> Phase<E, R>
    ensures { result ≡ phase_with item }
{
    match item {
        None => Phase::Finished,
        Some(Todo::Event(e)) => Phase::Event(e, Progress::Open),
        Some(Todo::Advance(k)) => Phase::Advance(k),
    }
}

/// Takes a worker without a pending change to its next item. `told` is the reply and the time of
/// its last item, if that was an event.
pub(crate) fn go_on<P: Parts>(
    parts: &P,
    worker: u8,
    seat: &mut Seat<P::Own, P::Event, P::Reply>,
    told: Option<(P::Reply, u64)>,
)
    requires worker { worker < length (P.means parts.now).owns }
    requires few { length (P.orders parts.now worker) + 1 < 2 ^ 32 }
    requires begun { seat.old.begun ≤ length (P.orders parts.now worker) }
    requires goes_on { CanGoOn (P.means parts.now) seat.old.own told (drop seat.old.begun (P.orders parts.now worker)) }
    requires calm { seat.old.pending ≡ None }
    ensures { seat.new ≡ seat_going_on (P.means parts.now) (P.orders parts.now) worker seat.old.own seat.old.begun told seat.old.items seat.old.advanced }
{
    let item = fetch_item(parts, worker, &mut seat.own, &mut seat.begun, told);
    seat.phase = phase_of(item);
}
