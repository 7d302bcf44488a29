ghost use Rattle.std.specs.Prelude.{◌≡◌, IfOk};
ghost use Rattle.ule_types.specs.Rules.{KeepsRules};

use crate::items::Items;
use crate::scripts::Scripts;
use std::alloc::Global;
use ule_io::Memory;
use ule_prio::{Cpu, Nice, Priority, ThreadId};
use ule_score::Settings;
use ule_topo::GroupLine;

/// The class of a declared thread, with its nice value or its base priority.
#[derive(Clone, Copy)]
pub enum Form {
    Ts(Nice),
    Ithd(Priority),
    Rt(Priority),
    Fifo(Priority),
    Idle(Priority),
}

/// A thread that is queued at the start.
#[derive(Clone, Copy)]
pub struct ThreadSpec {
    pub id: ThreadId,
    pub form: Form,
    /// The CPU that it is queued on.
    pub cpu: Cpu,
    /// Whether it is bound to that CPU.
    pub bound: bool,
}

/// The group lines of a setup, in order.
pub type Groups = Items<GroupLine>;

/// The declared threads of a setup, in order.
pub type Specs = Items<ThreadSpec>;

/// The unborn threads of a setup, in order.
pub type Unborn = Items<ThreadId>;

/// The turns of a setup, in order: each is a worker's number.
pub type Turns = Items<u8>;

/// What a scenario spells. Every setup keeps the rules of a scenario: `KeepsRules` of the specs
/// has a field for each.
#[derive(Drop)]
pub struct Setup {
    pub settings: Settings,
    /// Where the jitter words start.
    pub jitter: u32,
    /// The number of CPUs, 1..=16.
    pub cpus: u8,
    pub groups: Groups,
    pub threads: Specs,
    pub unborn: Unborn,
    pub scripts: Scripts,
    pub turns: Turns,
    ghost rules: { KeepsRules settings jitter cpus groups threads unborn scripts turns },
}

impl Setup {
    /// An equal setup, which takes its memory from `alloc`. Without that memory there is none.
    pub fn copy(&self, alloc: Global) -> Result<Setup, Memory>
        ensures { IfOk result (λ s. s ≡ self.now) }
    {
        let groups = self.groups.copy(alloc)?;
        let threads = self.threads.copy(alloc)?;
        let unborn = self.unborn.copy(alloc)?;
        let scripts = self.scripts.copy(alloc)?;
        let turns = self.turns.copy(alloc)?;
        Ok(Setup {
            settings: self.settings,
            jitter: self.jitter,
            cpus: self.cpus,
            groups,
            threads,
            unborn,
            scripts,
            turns,
        })
    }
}
