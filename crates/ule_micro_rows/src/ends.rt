//! What a small scheduler keeps of the end of a play.
ghost use Rattle.std.specs.Prelude.{◌≡◌, ◌<◌, ◌≤◌, [], IfOk};
ghost use Rattle.ule_micro_rows.specs.Ends.{with_entry, with_now, with_value, with_word};

use std::alloc::Global;
use std::marker::Model;
use ule_io::Memory;
use ule_prio::{LockId, ThreadId};

/// An entry that was told.
#[derive(Clone, Copy)]
pub struct Noted<E, R> {
    /// The worker that made it.
    pub worker: u8,
    /// Its time in hz ticks.
    pub now: u64,
    /// Its event.
    pub event: E,
    /// Its reply.
    pub reply: R,
}

/// What is kept of the end of a play of a scheduler of one thread.
#[derive(Drop)]
pub struct End<E, R> {
    entries: Vec<Noted<E, R>>,
    values: u8,
    place: Option<LockId>,
    word: Option<LockId>,
    time: u64,
}

impl<E, R> Model for End<E, R> {
    ghost use Rattle.std.specs.Prelude.{◌-◌, ◌≤◌, length, vec_capacity};
    ghost use Rattle.ule_micro_rows.specs.Ends.{EndState};

    ghost Value = { EndState E R };

    ghost view = { λ s. record { entries = s.entries.items; room = vec_capacity s.entries - length s.entries.items; values = s.values; place = s.place; word = s.word; time = s.time } };
}

impl<E, R> End<E, R> {
    /// Nothing was told yet. There is room for this many entries.
    pub fn with_room(alloc: Global, room: usize) -> Result<End<E, R>, Memory>
        ensures entries { IfOk result (λ s. s.entries ≡ []) }
        ensures room { IfOk result (λ s. room ≤ s.room) }
    {
        Ok(End {
            entries: Vec::with_capacity(alloc, room)?,
            values: 0,
            place: None,
            word: None,
            time: 0,
        })
    }

    /// The entries, in the order in which they were told.
    pub fn entries(&self) -> &[Noted<E, R>]
        ensures { result.now ≡ self.now.entries }
    {
        self.entries.as_slice()
    }

    /// How many locks' values were told.
    pub fn values(&self) -> u8
        ensures { result ≡ self.now.values }
    {
        self.values
    }

    /// The lock that the thread stands under; none where it is in a hand.
    pub fn place(&self) -> Option<LockId>
        ensures { result ≡ self.now.place }
    {
        self.place
    }

    /// The lock that the thread's word names; none where it is blocked.
    pub fn word(&self) -> Option<LockId>
        ensures { result ≡ self.now.word }
    {
        self.word
    }

    /// The time, in hz ticks.
    pub fn time(&self) -> u64
        ensures { result ≡ self.now.time }
    {
        self.time
    }

    /// Keeps an entry, for which there is room.
    pub(crate) fn note_entry(&mut self, worker: u8, now: u64, event: E, reply: R)
        requires { 0 < self.old.room }
        ensures { self.new ≡ with_entry self.old worker now event reply }
    {
        self.entries.push_reserved(Noted {
            worker,
            now,
            event,
            reply,
        });
    }

    /// Keeps whether the thread stands under a lock.
    pub(crate) fn note_value(&mut self, l: LockId, here: bool)
        ensures { self.new ≡ with_value self.old l here }
    {
        if self.values < l.0 + 1 {
            self.values = l.0 + 1;
        }
        if here {
            self.place = Some(l);
        }
    }

    /// Keeps the word of thread 0.
    pub(crate) fn note_word(&mut self, t: ThreadId, word: Option<LockId>)
        ensures { self.new ≡ with_word self.old t word }
    {
        if t.0 == 0 {
            self.word = word;
        }
    }

    /// Keeps the time.
    pub(crate) fn note_now(&mut self, now: u64)
        ensures { self.new ≡ with_now self.old now }
    {
        self.time = now;
    }
}
