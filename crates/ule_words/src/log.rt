//! A pass's own list of entries, with its room.
ghost use Rattle.std.specs.Prelude.{◌≡◌, ◌<◌, ◌≤◌, IfOk, ◌++◌, ◌∷◌, [], length};

use std::alloc::Global;
use std::marker::Model;
use ule_io::Memory;
use ule_micro::entry::Entry;

/// An entry with its number, which is the ticket after its commit.
#[derive(Clone, Copy)]
pub struct Numbered<E, R> {
    /// Its number, from 1.
    pub number: u64,
    /// The entry.
    pub entry: Entry<E, R>,
}

/// A list of entries. Contracts see what it has, and how many it has room for.
#[derive(Drop)]
pub struct Log<T> {
    items: Vec<T>,
}

impl<T> Model for Log<T> {
    ghost use Rattle.std.specs.Prelude.{vec_capacity};
    ghost use Rattle.ule_words.specs.Passes.{LogState};

    ghost Value = { LogState T };

    ghost view = { λ s. record { items = s.items.items; room = vec_capacity s.items } };
}

impl<T> Log<T> {
    /// An empty list with room for this many entries.
    pub(crate) fn with_room(alloc: Global, room: usize) -> Result<Log<T>, Memory>
        ensures { IfOk result (λ l. (l.items ≡ []) × (room ≤ l.room)) }
    {
        Ok(Log {
            items: Vec::with_capacity(alloc, room)?,
        })
    }

    /// Appends an entry, for which there is room.
    pub(crate) fn push(&mut self, x: T)
        requires { length self.old.items < self.old.room }
        ensures { self.new ≡ record { items = self.old.items ++ x ∷ []; room = self.old.room } }
    {
        self.items.push_reserved(x);
    }

    /// The entries, the oldest first.
    pub(crate) fn into_vec(self) -> Vec<T>
        ensures { result.items ≡ self.items }
    {
        let Log { items } = self;
        items
    }
}
