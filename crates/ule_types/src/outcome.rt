ghost use Rattle.std.specs.Prelude.{◌≡◌, ◌+◌, ◌-◌, ◌<◌, ◌≤◌, [], ◌∷◌, ◌++◌, length, slice_get, vec_capacity, nat_le, ◌==◌, IfOk, Some};
ghost use Rattle.std.specs.List.{position_or_len};
ghost use Rattle.ule_types.specs.Outcome.{placed, with_cpu, RisesFrom};

use crate::event::Entry;
use std::alloc::Global;
use std::marker::Model;
use ule_io::Memory;
use ule_prio::{Class, Cpu, LockId, Nice, Priority, ThreadId};
use ule_score::{CpuLine, Place};

/// What a trace tells of one thread at the end of a history.
#[derive(Clone, Copy, PartialEq, Eq)]
pub struct ThreadLine {
    pub id: ThreadId,
    pub place: Place,
    /// The thread's position in its bucket, from 0 at the head; 0 for a thread that isn't queued.
    pub pos: u8,
    pub class: Class,
    pub nice: Nice,
    pub base: Priority,
    pub lent: Option<Priority>,
    pub priority: Priority,
    /// The run time, shifted by 10 bits.
    pub run: u64,
    /// The sleep time, shifted by 10 bits.
    pub slept: u64,
    /// The ticks of its CPU use, shifted by 10 bits.
    pub ticks: u64,
    pub ltick: u64,
    pub ftick: u64,
    pub slice_count: u64,
    pub slept_at: u64,
    pub last: Cpu,
    pub last_run: u64,
    pub bound: Option<Cpu>,
    pub parent: Option<ThreadId>,
    /// The lock that the thread's word names; none where the word is blocked.
    pub word: Option<LockId>,
}

/// How many thread lines an outcome has room for.
pub const THREAD_LINES: usize = 256;

/// How many CPU lines an outcome has room for.
pub const CPU_LINES: usize = 16;

/// The entries of a history and its final lines: a line for each thread by rising id, and one for
/// each CPU by number. All its memory is taken by `with_room`.
#[derive(Drop)]
pub struct Outcome {
    entries: Vec<Entry>,
    // How many entries can still be noted.
    room: u32,
    threads: Vec<ThreadLine>,
    cpus: Vec<CpuLine>,
    end_time: u64,
}

fn is_from(m: &ThreadLine, id: ThreadId) -> bool
    ensures test { result ≡ nat_le id m.now.id }
    ensures range { id < 256 }
{
    id.0 <= m.id.0
}

// The place of the first line whose id is this or above, or the number of lines.
fn first_from(lines: &[ThreadLine], id: ThreadId) -> usize
    ensures place { result ≡ position_or_len (λ m. nat_le id m.id) lines.now }
    ensures within { result ≤ length lines.now }
    ensures range { id < 256 }
{
    for (at, m) in lines.iter().enumerate() {
        if is_from(m, id) {
            return at;
        }
    }
    lines.len()
}

// Puts the line in its place among lines that rise by id.
fn place(lines: &mut Vec<ThreadLine>, l: ThreadLine)
    requires rising { RisesFrom 0 lines.old.items }
    requires room { 256 ≤ vec_capacity lines.old }
    ensures items { lines.new.items ≡ placed l lines.old.items }
    ensures room { 256 ≤ vec_capacity lines.new }
    ensures rising { RisesFrom 0 lines.new.items }
{
    let at = first_from(lines, l.id);
    if at < lines.len() && lines[at].id == l.id {
        lines[at] = l;
    } else {
        lines.insert(at, l).unwrap();
    }
}

impl Model for Outcome {
    ghost use Rattle.std.specs.Prelude.{◌+◌, ◌^◌, ◌<◌, ◌≤◌, vec_len, vec_capacity};
    ghost use Rattle.ule_types.specs.Outcome.{OutcomeValue, RisesFrom};

    ghost Value = { OutcomeValue };

    ghost view = { λ o. record {
      entries = o.entries.items;
      threads = o.threads.items;
      cpus = o.cpus.items;
      now = o.end_time;
      room = o.room;
    } };

    ghost invariant = { λ o. record {
      entries_fit : vec_len o.entries + o.room < 2 ^ 32;
      entries_room : vec_len o.entries + o.room ≤ vec_capacity o.entries;
      threads_room : 256 ≤ vec_capacity o.threads;
      rising : RisesFrom 0 o.threads.items;
      cpus_room : 16 ≤ vec_capacity o.cpus;
      cpus_bound : vec_len o.cpus ≤ 16;
    } };
}

impl Outcome {
    /// An outcome without lines at time 0, with room for so many entries.
    pub fn with_room(alloc: Global, entries: u32) -> Result<Self, Memory>
        ensures { IfOk result (λ o. o
            ≡ record { entries = []; threads = []; cpus = []; now = 0; room = entries }) }
    {
        let room = entries;
        let Ok(entries) = Vec::with_capacity(alloc, room as usize) else {
            return Err(Memory);
        };
        let Ok(threads) = Vec::with_capacity(alloc, THREAD_LINES) else {
            return Err(Memory);
        };
        let Ok(cpus) = Vec::with_capacity(alloc, CPU_LINES) else {
            return Err(Memory);
        };
        Ok(Outcome {
            entries,
            room,
            threads,
            cpus,
            end_time: 0,
        })
    }

    /// Appends an entry, for which there must be room.
    pub fn note(&mut self, e: Entry)
        requires { 0 < self.old.room }
        ensures { self.new ≡ record self.old {
          entries = self.old.entries ++ e ∷ [];
          room = self.old.room - 1;
        } }
    {
        self.entries.extend_from_slice(&[e]).unwrap();
        self.room -= 1;
    }

    /// Puts the line in its place by rising id, instead of one with that id.
    pub fn set_thread(&mut self, l: ThreadLine)
        ensures { self.new ≡ record self.old { threads = placed l self.old.threads } }
    {
        place(&mut self.threads, l);
    }

    /// Sets the line of a CPU that has one, or appends that of the next CPU.
    pub fn set_cpu(&mut self, c: Cpu, l: CpuLine)
        requires { c ≤ length self.old.cpus }
        ensures { self.new ≡ record self.old { cpus = with_cpu c l self.old.cpus } }
    {
        let at = usize::from(c.0);
        if at < self.cpus.len() {
            self.cpus[at] = l;
        } else {
            self.cpus.push_reserved(l);
        }
    }

    /// Sets the time at the end, in hz ticks since the boot.
    pub fn set_now(&mut self, now: u64)
        ensures { self.new ≡ record self.old { now = now } }
    {
        self.end_time = now;
    }

    /// The number of entries.
    pub fn len(&self) -> u32
        ensures { result ≡ length self.now.entries }
    {
        self.entries.len() as u32
    }

    pub fn is_empty(&self) -> bool
        ensures { result ≡ (length self.now.entries == 0) }
    {
        self.entries.is_empty()
    }

    /// The entry of this number, from 1.
    pub fn entry(&self, k: u32) -> &Entry
        requires first { 1 ≤ k }
        requires last { k ≤ length self.now.entries }
        ensures { slice_get self.now.entries (k - 1) ≡ Some result.now }
    {
        &self.entries[k as usize - 1]
    }

    /// The thread lines, by rising id.
    pub fn threads(&self) -> &[ThreadLine]
        ensures lines { result.now ≡ self.now.threads }
        ensures rising { RisesFrom 0 self.now.threads }
    {
        self.threads.as_slice()
    }

    /// The CPU lines, at most 16, by number.
    pub fn cpus(&self) -> &[CpuLine]
        ensures lines { result.now ≡ self.now.cpus }
        ensures bound { length self.now.cpus ≤ 16 }
    {
        self.cpus.as_slice()
    }

    /// The time at the end, in hz ticks since the boot.
    pub fn end_time(&self) -> u64
        ensures { result ≡ self.now.now }
    {
        self.end_time
    }
}
