//! What the seats of the table know, and the rule of the table.
use crate::log::Numbered;
use atomic_table::{Join, Play, Seat, Split, Table, TableRule};
use std::alloc::Global;
use std::collections::LinkedList;
use std::marker::{Brand, PhantomData};
use ule_micro::{HeldLocks, OwnPart, Parts, WordChange};

/// The word of the ticket: behind the words of the locks and of the threads.
pub(crate) const TICKET: usize = 281;

/// The word of now.
pub(crate) const NOW: usize = 282;

/// The number of words.
pub(crate) const WORDS: usize = 283;

/// What a seat knows of a worker. No value of it is made: it is what contracts name.
pub struct Worker<H, G, E, R> {
    /// Its number.
    pub number: u64,
    /// What it has in hand.
    pub hand: H,
    /// The locks that it holds, with the values under them, the lock that was taken last first.
    pub held: LinkedList<(u64, G)>,
    /// The change of a thread's word that it has yet to store.
    pub pending: Option<WordChange>,
    /// The time that it read last, with the locks that it read it under, which it holds since.
    pub read: Option<(HeldLocks, u64)>,
    /// How many hz ticks it advanced now so far.
    pub advanced: u64,
    /// How many items it may still perform.
    pub allowance: u64,
    /// Its entries, the newest first, each with what it had advanced before it.
    pub mine: LinkedList<(u64, Numbered<E, R>)>,
    /// A number that is not below that of any of its entries.
    pub seen: u64,
}

/// What a seat knows: of one worker, of all at the start, or of none once it is spent.
pub struct View<H, G, E, R> {
    /// The workers that it knows of.
    pub workers: LinkedList<Worker<H, G, E, R>>,
}

/// The rule of the table.
pub struct Words<P> {
    parts: PhantomData<P>,
}

impl<P: Parts> TableRule<Option<P::Value>, View<P::Hand, P::Value, P::Event, P::Reply>, P>
    for Words<P> {
    ghost use Rattle.ule_words.specs.Rule.{Shows, first_view};

    ghost holds = { λ parts. Shows (P.means parts) };

    ghost first = { λ parts. first_view (P.means parts) };
}

// What a step tells is picked at each call.
impl<H, G, E, R> Play<Option<G>, View<H, G, E, R>> for Brand {
    ghost then = { λ _ _ _ _. Unit {0} };
}

/// How the first seat is split: one worker goes to a seat of its own.
pub(crate) struct Deals;

impl<H, G, E, R> Split<View<H, G, E, R>> for Deals {
    ghost use Rattle.ule_words.specs.Tells.{first_of, rest_of};

    ghost left = { λ v. rest_of v };

    ghost right = { λ v. first_of v };
}

/// How two seats become one: it knows the workers of both, and the other seat is spent.
pub(crate) struct Gathers;

impl<H, G, E, R> Join<View<H, G, E, R>> for Gathers {
    ghost use Rattle.ule_words.specs.Tells.{both_of, none_known};

    ghost both = { λ v w. both_of v w };

    ghost spent = { none_known };
}

/// The event that the ticket is raised for. It is picked at each call.
pub(crate) trait Deed<E> {
    ghost use Rattle.std.specs.Prelude.{Option};

    ghost event: { Option E };
}

impl<E> Deed<E> for Brand {
    ghost use Rattle.std.specs.Prelude.{None};

    ghost event = { None };
}

/// A seat of a worker.
pub(crate) type Place<O: OwnPart> = Seat<
    Option<O::Value>,
    View<O::Hand, O::Value, O::Event, O::Reply>,
>;

/// The table of the words, with the values of the locks in its slots.
pub(crate) type Board<P: Parts> = Table<
    Option<P::Value>,
    View<P::Hand, P::Value, P::Event, P::Reply>,
    P,
    Words<P>,
    Global,
>;
