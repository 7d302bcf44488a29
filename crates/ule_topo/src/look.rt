ghost use Rattle.std.specs.Prelude.{◌≡◌, ◌<◌, ◌≤◌, [], ◌∷◌, ◌++◌, length};

use std::marker::Model;
use ule_prio::Cpu;

/// What a look at a CPU sees, after the fields of `struct tdq` that `cpu_search` reads.
#[derive(Clone, Copy)]
pub struct Summary {
    /// How many threads run or are queued on the CPU, 0..=256.
    pub load: u32,
    /// How many of the queued ones are not bound, 0..=256.
    pub movable: u32,
    /// The better priority of the current thread and of the one that is chosen next; 255 where
    /// there is neither.
    pub lowpri: u8,
}

/// What the looks of one command saw, in order: at most one for each CPU.
#[derive(Drop)]
pub struct Looks {
    /// How many looks there were, 0..=16.
    pub n: u8,
    /// What they saw, in the first `n` places.
    pub seen: [Summary; 16],
}

impl Model for Looks {
    ghost use Rattle.std.specs.Prelude.{◌≡◌, ◌≤◌, List, length};
    ghost use Rattle.ule_topo.specs.declared.look.Summary.{Summary};

    ghost Value = { List Summary };

    ghost use Rattle.ule_topo.specs.Looks.{looks_kept};

    ghost view = { looks_kept };

    ghost invariant = { λ l. (l.n ≤ 16) × (length l.seen ≡ 16) };
}

impl Looks {
    ghost use Rattle.std.specs.Prelude.{◌≤◌};
    ghost use Rattle.ule_topo.specs.Looks.{look_at};

    /// No looks yet.
    pub fn none() -> Looks
        ensures { result ≡ [] }
    {
        let unseen = Summary {
            load: 0,
            movable: 0,
            lowpri: 255,
        };
        Looks {
            n: 0,
            seen: [unseen; 16],
        }
    }

    /// Forgets what the looks saw.
    pub fn clear(&mut self)
        ensures { self.new ≡ [] }
    {
        self.n = 0;
    }

    /// How many looks there were, 0..=16.
    pub fn len(&self) -> u8
        ensures number { result ≡ length self.now }
        ensures few { length self.now ≤ 16 }
    {
        self.n
    }

    /// Keeps what one more look saw.
    pub fn push(&mut self, s: Summary)
        requires { length self.old < 16 }
        ensures { self.new ≡ self.old ++ s ∷ [] }
    {
        self.seen[usize::from(self.n)] = s;
        self.n += 1;
    }

    /// What the look at a CPU saw, where the looks were at CPUs 0, 1 and so on.
    pub fn at(&self, c: Cpu) -> Summary
        requires { c < length self.now }
        ensures { result ≡ look_at self.now c }
    {
        self.seen[usize::from(c.0)]
    }
}
