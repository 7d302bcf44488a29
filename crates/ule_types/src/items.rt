ghost use Rattle.std.specs.Prelude.{◌≡◌, ℕ, ◌+◌, ◌<◌, ◌≤◌, List, [], ◌∷◌, ◌++◌, length, vec_len, slice_get, IfOk, OnOk, OnErr, Some, ◌==◌};

use std::alloc::Global;
use std::marker::Model;
use ule_io::Memory;

/// A list of at most 1,048,576 items of a setup, in the order in which they were pushed.
#[derive(Drop)]
pub struct Items<T> {
    items: Vec<T>,
}

impl<T> Model for Items<T> {
    ghost Value = { List T };

    ghost view = { λ s. s.items.items };

    ghost invariant = { λ s. vec_len s.items ≤ 1048576 };
}

impl<T: Drop> Items<T> {
    /// An empty list, which takes its memory from `alloc` as it grows.
    pub fn empty(alloc: Global) -> Result<Self, Memory>
        ensures { IfOk result (λ s. s ≡ []) }
    {
        Ok(Items {
            items: Vec::new(alloc),
        })
    }

    /// Appends an item. After `Memory` the list is as before.
    pub fn push(&mut self, x: T) -> Result<(), Memory>
        requires { length self.old < 1048576 }
        ensures ok { OnOk result (self.new ≡ self.old ++ x ∷ []) }
        ensures err { OnErr result (self.new ≡ self.old) }
    {
        match self.items.push(x) {
            Ok(()) => Ok(()),
            Err(_) => Err(Memory),
        }
    }

    pub fn len(&self) -> u32
        ensures len { result ≡ length self.now }
        ensures bound { result ≤ 1048576 }
    {
        self.items.len() as u32
    }

    pub fn is_empty(&self) -> bool
        ensures { result ≡ (length self.now == 0) }
    {
        self.items.is_empty()
    }

    /// The item at place `k`, from 0.
    pub fn at(&self, k: u32) -> &T
        requires { k < length self.now }
        ensures { slice_get self.now k ≡ Some result.now }
    {
        &self.items[k as usize]
    }

    /// The items as a slice.
    pub fn as_slice(&self) -> &[T]
        ensures { result.now ≡ self.now }
    {
        self.items.as_slice()
    }
}

impl<T: Copy + Drop> Items<T> {
    /// An equal list, which takes its memory from `alloc`.
    pub fn copy(&self, alloc: Global) -> Result<Self, Memory>
        ensures { IfOk result (λ s. s ≡ self.now) }
    {
        let mut copy = Items::empty(alloc)?;
        for x in self.items.as_slice() {
            copy.push(*x)?;
        }
        Ok(copy)
    }
}
