ghost use Rattle.std.specs.Prelude.{◌≡◌, ℕ, ◌+◌, ◌<◌, ◌≤◌, List, [], ◌∷◌, ◌++◌, length, vec_len, slice_get, slice_set, slice_index_or, IfOk, OnOk, OnErr, Some, replicate, ◌==◌};

use crate::command::Command;
use crate::items::Items;
use std::alloc::Global;
use std::marker::Model;
use ule_io::Memory;

/// How many workers a setup has room for.
pub const WORKERS: usize = 16;

/// One list of commands for each worker, 0..=15. A worker without a script has an empty one.
#[derive(Drop)]
pub struct Scripts {
    scripts: Vec<Items<Command>>,
}

impl Model for Scripts {
    ghost use Rattle.std.specs.Prelude.{List, ◌≡◌, vec_len};
    ghost use Rattle.ule_types.specs.declared.command.Command.{Command};

    ghost Value = { List (List Command) };

    ghost view = { λ s. s.scripts.items };

    ghost invariant = { λ s. vec_len s.scripts ≡ 16 };
}

impl Scripts {
    /// Sixteen empty scripts.
    pub fn empty(alloc: Global) -> Result<Self, Memory>
        ensures { IfOk result (λ s. s ≡ replicate 16 []) }
    {
        let mut scripts = Vec::new(alloc);
        for _worker in 0..WORKERS {
            let script = Items::empty(alloc)?;
            if scripts.push(script).is_err() {
                return Err(Memory);
            }
        }
        Ok(Scripts { scripts })
    }

    /// Appends a command to the script of a worker, 0..=15. After `Memory` the scripts are as
    /// before.
    pub fn push(&mut self, worker: u8, x: Command) -> Result<(), Memory>
        requires exists { worker < 16 }
        requires room { length (slice_index_or self.old worker []) < 1048576 }
        ensures ok { OnOk result (self.new ≡ slice_set self.old worker (slice_index_or self.old worker [] ++ x ∷ [])) }
        ensures err { OnErr result (self.new ≡ self.old) }
    {
        self.scripts[usize::from(worker)].push(x)
    }

    /// The number of commands of a worker, 0..=15.
    pub fn len(&self, worker: u8) -> u32
        requires { worker < 16 }
        ensures len { result ≡ length (slice_index_or self.now worker []) }
        ensures bound { result ≤ 1048576 }
    {
        self.scripts[usize::from(worker)].len()
    }

    /// The command at place `k`, from 0, of a worker, 0..=15.
    pub fn at(&self, worker: u8, k: u32) -> &Command
        requires exists { worker < 16 }
        requires within { k < length (slice_index_or self.now worker []) }
        ensures { slice_get (slice_index_or self.now worker []) k ≡ Some result.now }
    {
        self.scripts[usize::from(worker)].at(k)
    }

    /// The commands of a worker, 0..=15, in their order.
    pub fn commands_of(&self, worker: u8) -> &[Command]
        requires { worker < 16 }
        ensures { result.now ≡ slice_index_or self.now worker [] }
    {
        self.scripts[usize::from(worker)].as_slice()
    }

    /// Equal scripts, which take their memory from `alloc`.
    pub fn copy(&self, alloc: Global) -> Result<Self, Memory>
        ensures { IfOk result (λ s. s ≡ self.now) }
    {
        let mut scripts = Vec::new(alloc);
        for script in self.scripts.as_slice() {
            let copy = script.copy(alloc)?;
            if scripts.push(copy).is_err() {
                return Err(Memory);
            }
        }
        Ok(Scripts { scripts })
    }
}
