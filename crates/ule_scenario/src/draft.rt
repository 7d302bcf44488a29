// What the lines so far give.
ghost use Rattle.std.specs.Prelude.{◌≡◌, ◌≢◌, ◌+◌, ◌<◌, ◌≤◌, ℕ, max, Bool, List, [], ◌∷◌, ◌++◌, length, Option, Some, None, IfOk, OnOk, OnErr, slice_index_or, slice_set};
ghost use Rattle.ule_types.specs.Commands.{is_among, greatest_of, forked_by};
ghost use Rattle.ule_types.specs.declared.command.Command.{Command};
ghost use Rattle.ule_scenario.specs.Reading.{Reading, no_line, is_known_thread, is_forked, spent_items, last_worker};
ghost use Rattle.ule_scenario.specs.Effects.{with_command, with_line, turns_in};
ghost use Rattle.ule_scenario.specs.Forms.{first_fault, number_faults};
ghost use Rattle.ule_scenario.specs.WordsKept.{seen};
ghost use Rattle.ule_scenario.specs.declared.token.Token.{Token};
ghost use Rattle.ule_scenario.specs.Marks.{AreMarks};
ghost use Rattle.ule_scenario.specs.Given.{spec_of};
ghost use Rattle.ule_scenario.specs.Scenario.{IsSetupOf, KeepsAll};
ghost use Rattle.ule_scenario.specs.declared.name.Name.{Name};
ghost use Rattle.ule_topo.specs.Build.{built};
ghost use Rattle.ule_scenario.specs.Reasons.{fault_in};

use crate::words::Words;
use std::alloc::Global;
use std::marker::Model;
use ule_io::Memory;
use ule_prio::{Cpu, ThreadId};
use ule_score::Settings;
use ule_topo::{GroupLine, Topology};
use ule_types::{
    Command, Form, Groups, Scripts, Setup, Specs, ThreadSpec, Turns, Unborn, greatest,
};

/// The setup so far.
#[derive(Drop)]
pub struct Draft {
    pub(crate) place: u8,
    pub(crate) settings_from: u8,
    pub(crate) script_from: u8,
    pub(crate) settings: Settings,
    pub(crate) jitter: u32,
    pub(crate) cpus: u8,
    pub(crate) groups: Groups,
    threads: Specs,
    unborn: Unborn,
    scripts: Scripts,
    pub(crate) turns: Turns,
    /// Which threads are queued, by number.
    queued: [bool; 256],
    /// Which are unborn.
    waiting: [bool; 256],
    /// Which a command forks.
    forked: [bool; 256],
    /// What all commands are charged.
    spent: u32,
}

impl Model for Draft {
    ghost use Rattle.ule_scenario.specs.Reading.{Reading};

    ghost Value = { Reading };

    ghost use Rattle.ule_scenario.specs.DraftView.{reading_of, KeepsTables};

    ghost view = { reading_of };

    ghost invariant = { KeepsTables };
}

/// No thread.
#[tactic(auto, using(crate::proofs::Marks::none_marked))]
fn unmarked() -> [bool; 256]
    ensures { AreMarks result [] }
{
    [false; 256]
}

/// Whether a thread is marked.
#[tactic(auto, using(crate::proofs::Marks::past))]
fn is_marked(table: &[bool; 256], t: u64) -> bool
    ensures { (ids : List ℕ) → AreMarks table.now ids → result ≡ is_among ids t }
{
    t < 256 && table[t as usize]
}

/// Marks a thread.
#[tactic(auto, using(crate::proofs::Marks::marked))]
fn mark(table: &mut [bool; 256], t: ThreadId)
    ensures { (ids : List ℕ) → AreMarks table.old ids → AreMarks table.new (ids ++ t ∷ []) }
{
    table[usize::from(t.0)] = true;
}

/// Marks the thread that a command forks, if it does.
#[tactic(auto, using(crate::proofs::Scripts::no_more))]
fn mark_fork(table: &mut [bool; 256], c: &Command)
    ensures { (ids : List ℕ) → AreMarks table.old ids → AreMarks table.new (ids ++ forked_by c.now) }
{
    if let Command::Fork(t) = *c {
        mark(table, t);
    }
}

/// A thread that a line queues at the start.
#[derive(Clone, Copy)]
pub struct Given {
    pub id: ThreadId,
    pub form: Form,
    pub cpu: Cpu,
    pub bound: bool,
}

/// Appends a thread.
fn append(threads: &mut Specs, given: Given) -> Result<(), Memory>
    ensures ok { OnOk result (threads.new ≡ threads.old ++ spec_of given ∷ []) }
    ensures err { OnErr result (threads.new ≡ threads.old) }
{
    if threads.len() >= 1_048_576 {
        return Err(Memory);
    }
    threads.push(ThreadSpec {
        id: given.id,
        form: given.form,
        cpu: given.cpu,
        bound: given.bound,
    })
}

/// The number of the fault of groups, the last of which is this one.
#[tactic(auto, using(crate::proofs::Groups::with_last))]
fn fault_of_groups(cpus: u8, groups: &[GroupLine], group: GroupLine) -> Option<u8>
    requires some { 1 ≤ cpus }
    requires few { cpus ≤ 16 }
    requires fit { length groups.now < 15 }
    ensures { result ≡ fault_in (built cpus (groups.now ++ group ∷ [])) }
{
    let mut lines = [group; 15];
    let last = groups.len();
    lines[..last].copy_from_slice(groups);
    match Topology::build(cpus, &lines[..last + 1]) {
        Ok(_) => None,
        Err(e) => Some(e.fault.code()),
    }
}

/// Appends turns.
fn append_all(turns: &mut Turns, more: &[u8]) -> Result<(), Memory>
    requires { length turns.old + length more.now ≤ 4096 }
    ensures ok { OnOk result (turns.new ≡ turns.old ++ more.now) }
    ensures few { length turns.new ≤ 4096 }
{
    for w in more {
        turns.push(*w)?;
    }
    Ok(())
}

impl Draft {
    /// Before the first line.
    pub fn none(alloc: Global) -> Result<Self, Memory>
        ensures { IfOk result (λ r. r ≡ no_line) }
    {
        let groups = Groups::empty(alloc)?;
        let threads = Specs::empty(alloc)?;
        let unborn = Unborn::empty(alloc)?;
        let scripts = Scripts::empty(alloc)?;
        let turns = Turns::empty(alloc)?;
        let settings = Settings {
            interact: 30,
            slice: 12,
            preempt: 80,
            steal: 2,
        };
        Ok(Draft {
            place: 0,
            settings_from: 0,
            script_from: 0,
            settings,
            jitter: 0,
            cpus: 1,
            groups,
            threads,
            unborn,
            scripts,
            turns,
            queued: unmarked(),
            waiting: unmarked(),
            forked: unmarked(),
            spent: 0,
        })
    }

    /// The place, by the order of sections, of the line that stands furthest; 0 before the header.
    pub fn place(&self) -> u8
        ensures { result ≡ self.now.place }
    {
        self.place
    }

    /// Whether a thread is declared.
    pub fn is_known_thread(&self, t: u64) -> bool
        ensures { result ≡ is_known_thread self.now t }
    {
        is_marked(&self.queued, t) || is_marked(&self.waiting, t)
    }

    /// Whether it is declared as unborn.
    pub fn is_waiting(&self, t: u64) -> bool
        ensures { result ≡ is_among self.now.unborn t }
    {
        is_marked(&self.waiting, t)
    }

    /// Whether a command forks it.
    pub fn is_forked(&self, t: u64) -> bool
        ensures { result ≡ is_forked self.now t }
    {
        is_marked(&self.forked, t)
    }

    /// What all commands are charged.
    pub fn spent(&self) -> u32
        ensures value { result ≡ spent_items self.now }
        ensures bound { result ≤ 65536 }
    {
        self.spent
    }

    /// Queues a thread at the start.
    #[tactic(auto, using(crate::proofs::Marks::ids_grow))]
    pub fn declare(&mut self, given: Given) -> Result<(), Memory>
        ensures { OnOk result (self.new ≡ record self.old { place = max self.old.place 6; threads = self.old.threads ++ spec_of given ∷ [] }) }
    {
        let id = given.id;
        append(&mut self.threads, given)?;
        mark(&mut self.queued, id);
        self.place = self.place.max(6);
        Ok(())
    }

    /// The number of the fault of a group behind those so far, where it may stand behind them.
    pub fn fault_of_group(&self, group: GroupLine) -> Option<u8>
        ensures { length self.now.groups < 15 → result ≡ fault_in (built self.now.cpus (self.now.groups ++ group ∷ [])) }
    {
        if self.groups.len() >= 15 {
            return None;
        }
        fault_of_groups(self.cpus, self.groups.as_slice(), group)
    }

    /// Declares a group of CPUs.
    pub fn declare_group(&mut self, group: GroupLine) -> Result<(), Memory>
        ensures { OnOk result (self.new ≡ record self.old { place = max self.old.place 5; groups = self.old.groups ++ group ∷ [] }) }
    {
        if self.groups.len() >= 15 {
            return Err(Memory);
        }
        self.groups.push(group)?;
        self.place = self.place.max(5);
        Ok(())
    }

    /// Appends the turns of a line.
    #[tactic(auto, using(crate::proofs::Tails::turns_pass))]
    pub fn append_turns(&mut self, words: &Words) -> Result<(), Memory>
        ensures { (line : List Token) → words.now ≡ seen line → first_fault (number_faults line Name.Turns) ≡ None → OnOk result (self.new ≡ with_line self.old line Name.Turns) }
    {
        let more = words.turns.as_slice();
        if self.turns.len() as usize + more.len() > 4096 {
            return Err(Memory);
        }
        append_all(&mut self.turns, more)?;
        self.place = self.place.max(8);
        Ok(())
    }

    /// Declares an unborn thread.
    pub fn declare_unborn(&mut self, t: ThreadId) -> Result<(), Memory>
        ensures { OnOk result (self.new ≡ record self.old { place = max self.old.place 6; unborn = self.old.unborn ++ t ∷ [] }) }
    {
        if self.unborn.len() >= 1_048_576 {
            return Err(Memory);
        }
        self.unborn.push(t)?;
        mark(&mut self.waiting, t);
        self.place = self.place.max(6);
        Ok(())
    }

    /// Begins the script of a worker.
    pub fn begin_script(&mut self, worker: Cpu)
        ensures { self.new ≡ record self.old { place = max self.old.place 7; script_from = worker + 1 } }
    {
        self.script_from = worker.0 + 1;
        self.place = self.place.max(7);
    }

    /// Gives a command to the worker whose script stands last.
    #[inline(always)]
    pub fn command(&mut self, c: Command) -> Result<(), Memory>
        ensures { OnOk result (self.new ≡ record self.old { place = max self.old.place 7; scripts = with_command self.old.scripts (last_worker self.old) (Some c) }) }
    {
        let worker = self.script_from.saturating_sub(1);
        let charge = greatest(&c, worker, self.cpus);
        if worker >= 16 {
            return Err(Memory);
        }
        if self.scripts.len(worker) >= 1_048_576 {
            return Err(Memory);
        }
        if charge > 65_536 - self.spent {
            return Err(Memory);
        }
        self.scripts.push(worker, c)?;
        self.spent += charge;
        mark_fork(&mut self.forked, &c);
        self.place = self.place.max(7);
        Ok(())
    }

    /// Says how many CPUs there are.
    pub fn give_cpus(&mut self, cpus: u8) -> Result<(), Memory>
        requires few { cpus ≤ 16 }
        ensures { OnOk result (self.new ≡ record self.old { place = max self.old.place 4; cpus = cpus }) }
    {
        if self.place >= 7 || cpus == 0 {
            return Err(Memory);
        }
        self.cpus = cpus;
        self.place = self.place.max(4);
        Ok(())
    }

    /// Goes on to a place.
    pub fn go_on(&mut self, place: u8)
        ensures { self.new ≡ record self.old { place = max self.old.place place } }
    {
        self.place = self.place.max(place);
    }

    /// Seeds the balance count.
    pub fn give_jitter(&mut self, jitter: u32)
        ensures { self.new ≡ record self.old { place = max self.old.place 3; jitter = jitter } }
    {
        self.jitter = jitter;
        self.place = self.place.max(3);
    }

    /// Gives the settings, up to that at this place in their order.
    pub fn give_settings(&mut self, settings: Settings, place: u8)
        requires { place < 5 }
        ensures { self.new ≡ record self.old { place = max self.old.place 2; settings_from = place + 1; settings = settings } }
    {
        self.settings = settings;
        self.settings_from = place + 1;
        self.place = self.place.max(2);
    }

    /// The setup that was given.
    pub fn into_setup(self) -> Setup
        requires { KeepsAll self }
        ensures { IsSetupOf self result }
    {
        let Draft {
            settings,
            jitter,
            cpus,
            groups,
            threads,
            unborn,
            scripts,
            turns,
            ..
        } = self;
        Setup {
            settings,
            jitter,
            cpus,
            groups,
            threads,
            unborn,
            scripts,
            turns,
        }
    }
}
