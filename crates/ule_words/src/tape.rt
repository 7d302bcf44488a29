//! A pass's own entries, told one after the other.
ghost use Rattle.std.specs.Prelude.{◌≡◌, ◌<◌, ℕ, length, ◌∷◌, true, false};
ghost use Rattle.ule_words.specs.Merge.{BeginsWith};

use crate::log::Numbered;
use std::marker::Model;

/// Entries that are told one after the other. Contracts see those that are left.
#[derive(Drop)]
pub struct Tape<T> {
    items: Vec<T>,
    next: usize,
}

impl<T> Model for Tape<T> {
    ghost use Rattle.std.specs.Prelude.{drop, List};

    ghost Value = { List T };

    ghost view = { λ s. drop s.next s.items.items };
}

impl<T> Tape<T> {
    /// A tape of all these entries.
    pub(crate) fn new(items: Vec<T>) -> Tape<T>
        ensures { result ≡ items.items }
    {
        Tape { items, next: 0 }
    }
}

impl<E, R> Tape<Numbered<E, R>> {
    /// Whether the first entry that is left has this number.
    pub(crate) fn begins_with(&self, number: u64) -> bool
        ensures is { result ≡ true → BeginsWith number self.now }
        ensures is_not { result ≡ false → BeginsWith number self.now → ⊥ }
    {
        if self.next < self.items.len() {
            self.items[self.next].number == number
        } else {
            false
        }
    }

    /// The first entry that is left.
    pub(crate) fn first(&self) -> &Numbered<E, R>
        requires { 0 < length self.now }
        ensures { (rest : _) × (self.now ≡ result.now ∷ rest) }
    {
        &self.items[self.next]
    }

    /// Passes the first entry that is left.
    pub(crate) fn pass(&mut self)
        requires { 0 < length self.old }
        ensures { (x : _) × (self.old ≡ x ∷ self.new) }
    {
        self.next += 1;
    }
}
