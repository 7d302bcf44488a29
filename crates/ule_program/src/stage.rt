use ule_balance::Masks;
use ule_pick::Card;
use ule_prio::{Cpu, ThreadId};
use ule_topo::GroupIx;
use ule_types::Event;

/// What the looks of a command are for.
#[derive(Clone, Copy)]
pub enum Purpose {
    /// The thread, which the worker has in hand, lands, after `sched_pickcpu`.
    ToLand(ThreadId, Card),
    /// The worker's CPU steals a thread, after `tdq_idled`.
    ToSteal,
    /// Load is moved from crowded CPUs to others, after `sched_balance`.
    ToBalance,
}

/// What follows the reply to an event.
#[derive(Clone, Copy)]
pub enum Next {
    /// Nothing.
    Ends,
    /// A balance, if it is due.
    Balances,
    /// The thread that was dropped, if one was, goes to bed on this channel.
    Beds(u16),
    /// The thread, if it was woken, lands.
    Lands(ThreadId),
    /// The thread, if it was hatched, is forked.
    Forks(ThreadId),
    /// The child lands; where nothing ran to fork it, it is unborn again.
    LandsChild(ThreadId),
    /// The thread that left for good, if one did, is buried.
    Buries,
    /// The parent, if there is one, is charged with this run time, in 1024ths of an hz tick and
    /// below 2^62.
    Charges(Option<ThreadId>, u64),
    /// What the look saw is kept. The next CPU is looked at, or the looks are used.
    Sees(Purpose),
    /// If a thread was stolen from this CPU, or is there by now, a switch follows. Else another CPU
    /// of this mask is tried, in this group and outward.
    Steals(Cpu, GroupIx, u16),
    /// The plan goes on, told whether this CPU got a thread, for at most so many further moves.
    Moves(Masks, Cpu, u8),
}

/// Where a worker stands in a command.
#[derive(Clone, Copy)]
pub enum Stage {
    /// The command has no further item.
    Ended,
    /// So many hz ticks pass, 1..=1,000,000.
    Advances(u32),
    /// This event comes, or waits for its reply, and then this.
    Gives(Event, Next),
}
