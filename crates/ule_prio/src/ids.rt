ghost use Rattle.std.specs.Prelude.{ℕ, ◌<◌, ◌≤◌, ℤ, pos, negsuc, ◌≤ℤ◌};

use std::marker::Model;

/// A priority, 0..=255. A lower number is better. `ranges` names the parts of the scale.
#[derive(Clone, Copy, Debug, PartialEq, Eq, PartialOrd, Ord)]
pub struct Priority(pub u8);

impl Model for Priority {
    ghost Value = { ℕ };

    ghost view = { λ p. p.0 };

    ghost invariant = { λ p. p.0 < 256 };

    ghost inverse = { λ n. record { 0 = n } };
}

/// A nice value, -20..=20, as of `nice(1)`. A lower number is a greater share of the processor.
#[derive(Clone, Copy, Debug, PartialEq, Eq)]
pub struct Nice(pub i8);

impl Model for Nice {
    ghost Value = { ℤ };

    ghost view = { λ n. n.0 };

    ghost invariant = { λ n. (negsuc 19 ≤ℤ n.0) × (n.0 ≤ℤ pos 20) };

    ghost inverse = { λ z. record { 0 = z } };
}

/// The number of a thread, 0..=255.
#[derive(Clone, Copy, Debug, PartialEq, Eq)]
pub struct ThreadId(pub u8);

impl Model for ThreadId {
    ghost Value = { ℕ };

    ghost view = { λ t. t.0 };

    ghost invariant = { λ t. t.0 < 256 };

    ghost inverse = { λ n. record { 0 = n } };
}

/// The number of a CPU, 0..=15. Worker w acts for CPU w.
#[derive(Clone, Copy, Debug, PartialEq, Eq)]
pub struct Cpu(pub u8);

impl Model for Cpu {
    ghost Value = { ℕ };

    ghost view = { λ c. c.0 };

    ghost invariant = { λ c. c.0 < 16 };

    ghost inverse = { λ n. record { 0 = n } };
}

/// The number of a lock, 0..=24: the queue of CPU c is lock c, sleep chain k is lock 16 + k, and
/// the lock of unborn and gone threads, limbo, is 24.
#[derive(Clone, Copy, Debug, PartialEq, Eq)]
pub struct LockId(pub u8);

impl Model for LockId {
    ghost Value = { ℕ };

    ghost view = { λ l. l.0 };

    ghost invariant = { λ l. l.0 < 25 };

    ghost inverse = { λ n. record { 0 = n } };
}
