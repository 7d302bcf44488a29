ghost use Rattle.std.specs.Prelude.{◌≡◌, ℕ};
ghost use Rattle.ule_types.specs.declared.event.Reply.{Reply};
ghost use Rattle.ule_program.specs.Hearing.{IsSmallLook};
ghost use Rattle.ule_program.specs.Program.{after, has_moved, is_stolen, summary_in};
ghost use Rattle.ule_program.specs.declared.own.Own.{Own};
ghost use Rattle.ule_program.specs.declared.stage.Next.TheVariants.{Beds, Buries, Charges, Forks};

use crate::stage::{Next, Stage};
use ule_prio::{Cpu, ThreadId};
use ule_topo::Summary;
use ule_types::{Event, Reply};

/// A thread that left its CPU to sleep goes to bed.
pub(crate) fn after_drop(channel: u16, reply: &Reply) -> Stage
    ensures { (now : ℕ) (own : Own) → after (Beds channel) reply.now now own ≡ record own { stage = result } }
{
    match *reply {
        Reply::Dropped(out, _) => Stage::Gives(Event::Bed(out, channel), Next::Ends),
        _ => Stage::Ended,
    }
}

/// A hatched thread is forked.
pub(crate) fn after_hatch(worker: Cpu, t: ThreadId, reply: &Reply) -> Stage
    ensures { (now : ℕ) (own : Own) → own.worker ≡ worker → after (Forks t) reply.now now own ≡ record own { stage = result } }
{
    match *reply {
        Reply::Hatched => Stage::Gives(Event::Fork(worker, t), Next::LandsChild(t)),
        _ => Stage::Ended,
    }
}

/// A thread that left its CPU for good is buried.
pub(crate) fn after_exit(reply: &Reply) -> Stage
    ensures { (now : ℕ) (own : Own) → after Buries reply.now now own ≡ record own { stage = result } }
{
    match *reply {
        Reply::Exited(out, _, parent, run) => {
            Stage::Gives(Event::Bury(out), Next::Charges(parent, run))
        }
        _ => Stage::Ended,
    }
}

/// The parent of a buried thread, if it had one, is charged with its run time.
pub(crate) fn after_burial(parent: Option<ThreadId>, run: u64) -> Stage
    ensures { (r : Reply) (now : ℕ) (own : Own) → after (Charges parent run) r now own ≡ record own { stage = result } }
{
    match parent {
        Some(parent) => Stage::Gives(Event::Inherit(parent, run), Next::Ends),
        None => Stage::Ended,
    }
}

/// What a look saw, by its reply.
pub(crate) fn seen_by(reply: &Reply) -> Summary
    requires { IsSmallLook reply.now }
    ensures { result ≡ summary_in reply.now }
{
    match *reply {
        Reply::Seen(load, movable, low) => Summary {
            load: load as u32,
            movable: movable as u32,
            lowpri: low.0,
        },
        _ => Summary {
            load: 0,
            movable: 0,
            lowpri: 255,
        },
    }
}

/// Whether a thread was moved.
pub(crate) fn has_moved(reply: &Reply) -> bool
    ensures { result ≡ has_moved reply.now }
{
    match *reply {
        Reply::Moved(_, _, _, _) => true,
        _ => false,
    }
}

/// Whether a steal is done: a thread was moved, or the worker's CPU has one by now.
pub(crate) fn is_stolen(reply: &Reply) -> bool
    ensures { result ≡ is_stolen reply.now }
{
    match *reply {
        Reply::NoneMovable(_, _, there) => there != 0,
        _ => true,
    }
}
