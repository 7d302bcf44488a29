//! What stands between two turns, by the readers of a `Player` and of its `World`.
use std::alloc::Global;
use ule_io::Memory;
use ule_prio::{Cpu, Kind, ThreadId};
use ule_program::Stage;
use ule_score::{Place, Settings};
use ule_seq::{Player, World};
use ule_types::{Entry, Outcome, ThreadLine};

/// The threads and CPUs of a world, and where a worker's program stands in its command.
#[derive(Drop)]
pub struct View {
    /// The final lines that a trace would have now.
    pub lines: Outcome,
    /// How far the bucket of each thread lies ahead of the removal index, where it waits in a calendar.
    distances: [Option<u8>; 256],
    /// The item that comes next, and what follows it.
    pub stage: Stage,
    /// The jitter word that the worker's next search begins with.
    pub word: u32,
}

/// An entry that was made, and what stood before and behind it.
#[derive(Clone, Copy)]
pub struct Scene<'a> {
    pub settings: Settings,
    pub entry: Entry,
    pub before: &'a View,
    pub after: &'a View,
    pub world: &'a World,
}

impl View {
    /// What stands in the world of a play, and where the program of a worker stands.
    pub fn of(alloc: Global, player: &Player, worker: u8) -> Result<View, Memory> {
        let mut lines = Outcome::with_room(alloc, 0)?;
        player.world().finals(player.now(), &mut lines);
        let mut distances = [None; 256];
        for line in lines.threads() {
            if let Some(distance) = distances.get_mut(usize::from(line.id.0)) {
                *distance = distance_of(player.world(), &line.place);
            }
        }
        let (stage, word) = match player.program(worker) {
            Some(program) => (program.own().stage, program.own().jitter),
            None => (Stage::Ended, 0),
        };
        Ok(View {
            lines,
            distances,
            stage,
            word,
        })
    }

    /// A thread by its number.
    pub fn thread(&self, t: ThreadId) -> Option<&ThreadLine> {
        for line in self.lines.threads() {
            if line.id == t {
                return Some(line);
            }
        }
        None
    }

    /// How far the bucket of a thread lies ahead of the removal index, where it waits in a calendar.
    pub fn distance(&self, t: ThreadId) -> Option<u8> {
        self.distances.get(usize::from(t.0)).copied().flatten()
    }
}

/// How far a bucket lies ahead of the removal index, where a thread waits in a calendar.
fn distance_of(world: &World, place: &Place) -> Option<u8> {
    match *place {
        Place::Queued {
            cpu,
            kind: Kind::Batch,
            bucket,
        } => distance_on(world, cpu, bucket),
        _ => None,
    }
}

/// How far a bucket of a CPU's calendar lies ahead of the removal index.
fn distance_on(world: &World, cpu: Cpu, bucket: u8) -> Option<u8> {
    match world.queue(cpu) {
        Some(tdq) if bucket < 64 => Some(tdq.calendar().distance(bucket)),
        _ => None,
    }
}

/// The CPU that a thread is queued on.
pub fn queue_of(place: Place) -> Option<Cpu> {
    match place {
        Place::Queued { cpu, .. } => Some(cpu),
        _ => None,
    }
}
