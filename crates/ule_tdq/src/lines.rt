ghost use Rattle.std.specs.Prelude.{◌≡◌, ◌<◌, Some};
ghost use Rattle.ule_model.specs.Finals.{line_of};
ghost use Rattle.ule_model.specs.Places.{lock_of};
ghost use Rattle.ule_score.specs.declared.place.Place.TheVariants.{Queued};

use ule_prio::{Cpu, Kind, LockId};
use ule_score::{Place, ThreadRecord};
use ule_types::ThreadLine;

/// A place in a queue of this CPU, with the position there.
pub fn queued(cpu: Cpu, kind: Kind, found: (u8, u16)) -> (Place, u8)
    requires { found.1 < 256 }
    ensures { result ≡ (Queued cpu kind found.0, found.1) }
{
    let (bucket, position) = found;
    (Place::Queued { cpu, kind, bucket }, position as u8)
}

/// The line of a record at a place under this lock.
pub fn line_of(r: &ThreadRecord, place: Place, pos: u8, word: Option<LockId>) -> ThreadLine
    requires { lock_of place ≡ word }
    ensures { result ≡ line_of r.now place pos }
{
    ThreadLine {
        id: r.id,
        place,
        pos,
        class: r.class,
        nice: r.nice,
        base: r.base,
        lent: r.lent,
        priority: r.priority,
        run: r.hist.run,
        slept: r.hist.slept,
        ticks: r.usage.ticks,
        ltick: r.usage.ltick,
        ftick: r.usage.ftick,
        slice_count: u64::from(r.slice_count),
        slept_at: r.slept_at,
        last: r.last,
        last_run: r.last_run,
        bound: r.bound,
        parent: r.parent,
        word,
    }
}
