//! What a worker steps with.
ghost use Rattle.std.specs.Prelude.{◌≡◌, true, Some};
ghost use Rattle.ule_words.specs.Held.{is_held, value_held};
ghost use Rattle.ule_words.specs.Passes.{PassState, IsTied, pass_state_of};

use crate::holding::Holding;
use crate::log::{Log, Numbered};
use crate::view::Place;
use std::marker::Model;
use ule_micro::{OwnPart, Parts};
use ule_prio::LockId;

/// What a worker steps with: its number and allowance, the time that it read last, its own part, the
/// locks that it holds with the values under them, and its own list of entries. Contracts see the
/// table that it is of, the own part, and what is known of the worker.
#[derive(Drop)]
pub struct Pass<O: OwnPart> {
    pub(crate) number: u8,
    pub(crate) allowance: u32,
    pub(crate) time: u64,
    pub(crate) own: O,
    pub(crate) holding: Holding<O::Value>,
    pub(crate) log: Log<Numbered<O::Event, O::Reply>>,
    pub(crate) seat: Place<O>,
}

impl<O: OwnPart> Model for Pass<O> {
    ghost Value = { PassState O O.Hand O.Value O.Event O.Reply };

    ghost view = { λ p. pass_state_of p.seat.table_id p.number (O.hand p.own) p.own p.seat.me };

    ghost invariant = { λ p. IsTied p.number p.allowance p.time (O.hand p.own) (O.number p.own) p.holding p.log p.seat.me };
}

/// The passes of all workers, in rising number.
pub struct Passes<P: Parts> {
    /// The passes.
    pub list: Vec<Pass<P::Own>>,
}

/// The number of a pass's worker.
pub fn worker<O: OwnPart>(p: &Pass<O>) -> u8
    ensures { result ≡ p.now.worker.number }
{
    p.number
}

/// How many items a pass's worker may still perform: at the start its budget, and one less behind
/// each commit and each advance.
pub fn allowance<O: OwnPart>(p: &Pass<O>) -> u32
    ensures { result ≡ p.now.worker.allowance }
{
    p.allowance
}

/// The value under a lock that the pass holds.
pub fn value<O: OwnPart>(p: &Pass<O>, l: LockId) -> &O::Value
    requires { is_held p.now.worker.held l ≡ true }
    ensures { value_held p.now.worker.held l ≡ Some result.now }
{
    p.holding.get(l.0)
}
