ghost use Rattle.std.specs.Prelude.{◌≡◌, ◌<◌, ◌≤◌, ◌∷◌, [], ℕ, length};
ghost use Rattle.ule_topo.specs.Build.{lone_root};
ghost use Rattle.ule_topo.specs.Tree.{outward};
ghost use Rattle.ule_program.specs.Groups.{topology_of};
ghost use Rattle.ule_program.specs.Hearing.{CanFollow, CanHear, CanHearAt, IsGroupOf, IsPlanOf, IsPurposeBy, IsSeat, IsSmallLook, IsSoundCard, IsSoundLooking, IsSoundMoving, IsSoundOwn, IsSoundPurpose, IsSoundSteal};
ghost use Rattle.ule_program.specs.Program.{after, balancing, begun, heard, idles, item_at, landing, lands_on, lands_picked, looks_for, moves, next_of, once_given, own_of_setup, steals, uses_looks};
ghost use Rattle.ule_program.specs.declared.stage.Next.TheVariants.{Balances, Lands, LandsChild, Moves, Sees, Steals};
ghost use Rattle.ule_program.specs.declared.stage.Stage.TheVariants.{Gives};

use crate::reply::{
    after_burial, after_drop, after_exit, after_hatch, has_moved, is_stolen, seen_by,
};
use crate::stage::{Next, Purpose, Stage};
use ule_balance::{Masks, begin, plan_next, told};
use ule_pick::{Card, pick};
use ule_prio::{Cpu, ThreadId};
use ule_score::Why;
use ule_search::{Jitter, highest};
use ule_topo::{GroupIx, Looks, Summary, Topology, all_cpus, without_cpu};
use ule_types::{Command, Event, Item, MoveWhy, Reply, Setup};

/// All that a worker's next item depends on, but for the reply to the event before.
#[derive(Drop)]
pub struct Own {
    pub worker: Cpu,
    pub topology: Topology,
    /// The least load that is stolen from.
    pub steal: u8,
    pub stage: Stage,
    /// What the looks of the command saw, as they were seen.
    pub looks: Looks,
    /// The jitter word.
    pub jitter: u32,
}

impl Own {
    /// A worker of a setup before its first command.
    pub(crate) fn start(s: &Setup, worker: u8) -> Own
        requires { worker < s.now.cpus }
        ensures { result ≡ own_of_setup s.now worker }
    {
        Own {
            worker: Cpu(worker),
            topology: topology_of(s),
            steal: s.settings.steal,
            stage: Stage::Ended,
            looks: Looks::none(),
            jitter: s.jitter.wrapping_add(u32::from(worker)),
        }
    }

    /// Begins a command.
    pub(crate) fn begin(&mut self, c: &Command)
        ensures { self.new ≡ begun c.now self.old }
    {
        let w = self.worker;
        match *c {
            Command::Tick => self.give(Event::Tick(w), Next::Balances),
            Command::Time(ticks) => self.stage = Stage::Advances(ticks),
            Command::Yield => self.give(Event::Switch(w, Why::Yield), Next::Ends),
            Command::Resched => self.give(Event::Switch(w, Why::Resched), Next::Ends),
            Command::Sleep(channel) => self.give(Event::Drop(w, channel), Next::Beds(channel)),
            Command::Wake(t) => self.give(Event::Wake(t), Next::Lands(t)),
            Command::Lend(t, p) => self.give(Event::Lend(t, p), Next::Ends),
            Command::Unlend(t) => self.give(Event::Unlend(t), Next::Ends),
            Command::Renice(t, nice) => self.give(Event::Renice(t, nice), Next::Ends),
            Command::Fork(t) => self.give(Event::Hatch(t), Next::Forks(t)),
            Command::Exit => self.give(Event::Exit(w), Next::Buries),
            Command::Idle => self.look_for(Purpose::ToSteal),
            Command::Balance => self.balance_several(),
            Command::Look(c) => self.give(Event::Look(c), Next::Ends),
        }
    }

    /// An event comes, and then what follows.
    #[inline]
    fn give(&mut self, event: Event, next: Next)
        ensures { self.new ≡ record self.old { stage = Gives event next } }
    {
        self.stage = Stage::Gives(event, next);
    }

    /// Looks at all CPUs come, from CPU 0 on.
    fn look_for(&mut self, purpose: Purpose)
        ensures { self.new ≡ looks_for purpose self.old }
    {
        self.looks.clear();
        self.stage = Stage::Gives(Event::Look(Cpu(0)), Next::Sees(purpose));
    }

    /// The looks of a balance come, where there are several CPUs.
    fn balance_several(&mut self)
        ensures { self.new ≡ balancing self.old }
    {
        if self.topology.cpus() == 1 {
            self.stage = Stage::Ended;
        } else {
            self.look_for(Purpose::ToBalance);
        }
    }

    /// The next item, told the reply and the time of the event before, if one was given.
    #[inline(always)]
    pub(crate) fn next(&mut self, last: &Option<(Reply, u64)>) -> Option<Item>
        requires sound { IsSoundOwn self.old }
        requires hears { CanHear last.now self.old }
        ensures item { result ≡ (next_of last.now self.old).0 }
        ensures after { self.new ≡ (next_of last.now self.old).1 }
    {
        if let Some(told) = last {
            self.hear(&told.0, told.1);
        }
        self.next_item()
    }

    /// The next item, told the reply and the time of the event before.
    #[inline(always)]
    pub(crate) fn hear_reply(&mut self, reply: &Reply, now: u64) -> Option<Item>
        requires sound { IsSoundOwn self.old }
        requires hears { CanHear (Some (reply.now, now)) self.old }
        ensures item { result ≡ (next_of (Some (reply.now, now)) self.old).0 }
        ensures after { self.new ≡ (next_of (Some (reply.now, now)) self.old).1 }
    {
        self.hear(reply, now);
        self.next_item()
    }

    /// Goes on to where the reply to the last event leads.
    #[inline(always)]
    fn hear(&mut self, reply: &Reply, now: u64)
        requires { CanHearAt self.old self.old.stage reply.now now }
        ensures { self.new ≡ heard self.old.stage reply.now now self.old }
    {
        match self.stage {
            Stage::Ended => {}
            Stage::Advances(_) => self.stage = Stage::Ended,
            // the most common case, in which what follows is not copied out
            Stage::Gives(_, Next::Ends) => self.stage = Stage::Ended,
            Stage::Gives(_, next) => self.follow(&next, reply, now),
        }
    }

    /// Goes on to what follows a reply.
    #[inline(never)]
    fn follow(&mut self, next: &Next, reply: &Reply, now: u64)
        requires { CanFollow self.old next.now reply.now now }
        ensures { self.new ≡ after next.now reply.now now self.old }
    {
        match *next {
            Next::Ends => self.stage = Stage::Ended,
            Next::Balances => self.balance_if_due(reply),
            Next::Beds(channel) => self.stage = after_drop(channel, reply),
            Next::Lands(t) => self.land_woken(t, reply),
            Next::Forks(t) => self.stage = after_hatch(self.worker, t, reply),
            Next::LandsChild(t) => self.land_child(t, reply, now),
            Next::Buries => self.stage = after_exit(reply),
            Next::Charges(parent, run) => self.stage = after_burial(parent, run),
            Next::Sees(purpose) => self.see(&purpose, reply, now),
            Next::Steals(v, g, mask) => self.steal_on(v, g, mask, reply),
            Next::Moves(plan, low, left) => self.move_on(&plan, low, left, reply),
        }
    }

    /// After a tick the balance that is due.
    fn balance_if_due(&mut self, reply: &Reply)
        ensures { (now : ℕ) → self.new ≡ after Balances reply.now now self.old }
    {
        match *reply {
            Reply::Ticked(_, true, _) => self.balance_several(),
            _ => self.stage = Stage::Ended,
        }
    }

    /// A woken thread lands.
    fn land_woken(&mut self, t: ThreadId, reply: &Reply)
        ensures { (now : ℕ) → self.new ≡ after (Lands t) reply.now now self.old }
    {
        match *reply {
            Reply::Woken(priority, bound, last, last_run) => self.land(
                t,
                &Card {
                    priority,
                    bound,
                    last,
                    last_run,
                },
            ),
            _ => self.stage = Stage::Ended,
        }
    }

    /// A child lands; where nothing ran to fork it, it is unborn again.
    fn land_child(&mut self, t: ThreadId, reply: &Reply, now: u64)
        ensures { self.new ≡ after (LandsChild t) reply.now now self.old }
    {
        match *reply {
            Reply::Forked(_, priority) => {
                let card = Card {
                    priority,
                    bound: None,
                    last: self.worker,
                    last_run: now,
                };
                self.land(t, &card);
            }
            _ => self.give(Event::Return(t), Next::Ends),
        }
    }

    /// The thread in hand lands: on its CPU if it is bound, on the one CPU that there is, or after
    /// looks at all of them.
    fn land(&mut self, t: ThreadId, card: &Card)
        ensures { self.new ≡ landing t card.now self.old }
    {
        match card.bound {
            Some(c) => self.land_on(t, c),
            None => {
                if self.topology.cpus() == 1 {
                    self.land_on(t, Cpu(0));
                } else {
                    self.look_for(Purpose::ToLand(t, *card));
                }
            }
        }
    }

    /// The thread in hand comes to a CPU.
    fn land_on(&mut self, t: ThreadId, c: Cpu)
        ensures { self.new ≡ lands_on t c self.old }
    {
        self.stage = Stage::Gives(Event::Land(t, c), Next::Ends);
    }

    /// A look is kept. The next CPU is looked at, or the looks are used.
    fn see(&mut self, purpose: &Purpose, reply: &Reply, now: u64)
        requires seat { IsSeat self.old.worker self.old.topology }
        requires sound { IsSoundLooking self.old.topology.cpus self.old.looks purpose.now }
        requires small { IsSmallLook reply.now }
        requires by { IsPurposeBy now purpose.now }
        ensures { self.new ≡ after (Sees purpose.now) reply.now now self.old }
    {
        self.looks.push(seen_by(reply));
        let n = self.looks.len();
        if n < self.topology.cpus() {
            self.stage = Stage::Gives(Event::Look(Cpu(n)), Next::Sees(*purpose));
        } else {
            self.use_looks(purpose, now);
        }
    }

    /// The looks at all CPUs are used.
    fn use_looks(&mut self, purpose: &Purpose, now: u64)
        requires seat { IsSeat self.old.worker self.old.topology }
        requires all { length self.old.looks ≡ self.old.topology.cpus }
        requires sound { IsSoundPurpose self.old.topology.cpus purpose.now }
        requires by { IsPurposeBy now purpose.now }
        ensures { self.new ≡ uses_looks purpose.now now self.old }
    {
        match *purpose {
            Purpose::ToLand(t, card) => self.land_picked(t, &card, now),
            Purpose::ToSteal => self.steal_if_idle(),
            Purpose::ToBalance => {
                let n = self.topology.cpus();
                self.move_next(&begin(n), n - 1);
            }
        }
    }

    /// The thread in hand comes to the CPU that is chosen by the looks.
    fn land_picked(&mut self, t: ThreadId, card: &Card, now: u64)
        requires seat { IsSeat self.old.worker self.old.topology }
        requires all { length self.old.looks ≡ self.old.topology.cpus }
        requires sound { IsSoundCard self.old.topology.cpus card.now }
        requires by { card.now.last_run ≤ now }
        ensures { self.new ≡ lands_picked t card.now now self.old }
    {
        let mut jitter = Jitter { word: self.jitter };
        let c = pick(
            &self.topology,
            card,
            &self.looks,
            self.worker,
            now,
            &mut jitter,
        );
        self.jitter = jitter.word;
        self.land_on(t, c);
    }

    /// Where the worker's CPU has nothing to run, a thread of another CPU is sought from its
    /// innermost group outward.
    fn steal_if_idle(&mut self)
        requires seat { IsSeat self.old.worker self.old.topology }
        requires all { length self.old.looks ≡ self.old.topology.cpus }
        ensures { self.new ≡ idles self.old }
    {
        let w = self.worker;
        if self.looks.at(w).load == 0 {
            let n = self.topology.cpus();
            let g = self.topology.deepest(w);
            self.steal_from(without_cpu(all_cpus(n), w), g);
        } else {
            self.stage = Stage::Ended;
        }
    }

    /// A thread is stolen from a CPU of a mask, sought in a group of the worker's and then outward.
    fn steal_from(&mut self, mask: u16, g: GroupIx)
        requires seat { IsSeat self.old.worker self.old.topology }
        requires all { length self.old.looks ≡ self.old.topology.cpus }
        requires group { IsGroupOf self.old.worker self.old.topology g }
        ensures { self.new ≡ steals mask (outward self.old.topology self.old.worker g) self.old }
    {
        let w = self.worker;
        let outer = self.topology.parent(g);
        let mut searched = Jitter { word: self.jitter };
        let found = highest(
            &self.topology,
            g,
            &self.looks,
            mask,
            u32::from(self.steal),
            &mut searched,
        );
        self.jitter = searched.word;
        match found {
            Some(v) => self.give(Event::Move(v, w, MoveWhy::Steal), Next::Steals(v, g, mask)),
            None => match outer {
                Some(further) => self.steal_from(mask, further),
                None => self.stage = Stage::Ended,
            },
        }
    }

    /// A steal that is done ends with a switch; else another CPU of the mask is tried.
    fn steal_on(&mut self, v: Cpu, g: GroupIx, mask: u16, reply: &Reply)
        requires seat { IsSeat self.old.worker self.old.topology }
        requires sound { IsSoundSteal self.old.worker self.old.topology self.old.looks v g mask }
        ensures { (now : ℕ) → self.new ≡ after (Steals v g mask) reply.now now self.old }
    {
        if is_stolen(reply) {
            self.give(Event::Switch(self.worker, Why::Yield), Next::Ends);
        } else {
            self.steal_from(without_cpu(mask, v), g);
        }
    }

    /// The next move of a plan, with so many moves left after it.
    fn move_next(&mut self, plan: &Masks, left: u8)
        requires all { length self.old.looks ≡ self.old.topology.cpus }
        requires sound { IsPlanOf self.old.topology.cpus plan.now }
        ensures { self.new ≡ moves left plan.now self.old }
    {
        let mut planned = Jitter { word: self.jitter };
        let mut plan = *plan;
        let pair = plan_next(&self.topology, &self.looks, &mut plan, &mut planned);
        self.jitter = planned.word;
        match pair {
            Some((high, low)) => self.give(
                Event::Move(high, low, MoveWhy::Balance),
                Next::Moves(plan, low, left),
            ),
            None => self.stage = Stage::Ended,
        }
    }

    /// A plan that is told of its move goes on, while there are moves left.
    fn move_on(&mut self, plan: &Masks, low: Cpu, left: u8, reply: &Reply)
        requires seat { IsSeat self.old.worker self.old.topology }
        requires sound { IsSoundMoving self.old.topology.cpus self.old.looks plan.now low }
        ensures { (now : ℕ) → self.new ≡ after (Moves plan.now low left) reply.now now self.old }
    {
        if left == 0 {
            self.stage = Stage::Ended;
        } else {
            let mut plan = *plan;
            told(&mut plan, low, has_moved(reply));
            self.move_next(&plan, left - 1);
        }
    }

    /// The item at the stage; none where the command has no further one. An advance is left as it
    /// is given.
    #[inline(always)]
    fn next_item(&mut self) -> Option<Item>
        ensures item { result ≡ item_at self.old.stage }
        ensures after { self.new ≡ once_given self.old }
    {
        match self.stage {
            Stage::Ended => None,
            Stage::Advances(ticks) => {
                self.stage = Stage::Ended;
                Some(Item::Advance(ticks))
            }
            Stage::Gives(event, _) => Some(Item::Event(event)),
        }
    }
}

/// The topology of a setup's group lines.
#[tactic(auto, using(crate::proofs::GroupLaws::built_topology))]
fn topology_of(s: &Setup) -> Topology
    ensures { result ≡ topology_of s.now.cpus s.now.groups }
{
    match Topology::build(s.cpus, s.groups.as_slice()) {
        Ok(topology) => topology,
        Err(_) => one_root(s.cpus),
    }
}

/// One root of so many CPUs.
fn one_root(cpus: u8) -> Topology
    requires some { 1 ≤ cpus }
    requires few { cpus ≤ 16 }
    ensures { result ≡ record { cpus = cpus; groups = lone_root cpus ∷ [] } }
{
    match Topology::build(cpus, &[]) {
        Ok(topology) => topology,
        Err(_) => unreachable!(),
    }
}
