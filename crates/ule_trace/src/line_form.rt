// Reading the words of a line.
ghost use Rattle.std.specs.Prelude.{◌≡◌, ◌∷◌, codes};
ghost use Rattle.ule_trace.specs.Parts.{taken, Takes, form2, form3, form4};
ghost use Rattle.ule_trace.specs.Fields.{cpu, thread, priority, bucket, amount, nice, keyword, maybe, flag, class_named, lock_name};
ghost use Rattle.ule_trace.specs.PlaceForm.{final_place};
ghost use Rattle.ule_trace.specs.LineForm.{entry_number, entry_form, head, priorities, history, usage, past, ties, thread_line, thread_form, marks, counts, cpu_form};

use crate::field::number;
use crate::parts::Parts;
use ule_history::{CpuUse, History};
use ule_prio::{Class, Cpu, LockId, Nice, Priority, ThreadId};
use ule_score::{CpuLine, Place};
use ule_types::{Entry, ThreadLine};

/// What a thread's line begins with.
#[derive(Clone, Copy)]
pub struct Head {
    pub id: ThreadId,
    pub place: Place,
    pub position: u8,
    pub class: Class,
    pub nice: Nice,
}

/// A thread's priorities.
#[derive(Clone, Copy)]
pub struct Priorities {
    pub base: Priority,
    pub lent: Option<Priority>,
    pub priority: Priority,
}

/// A thread's slice count, and where and when it last ran and slept.
#[derive(Clone, Copy)]
pub struct Past {
    pub slice_count: u64,
    pub slept_at: u64,
    pub last: Cpu,
    pub last_run: u64,
}

/// The CPU that a thread is bound to, its parent, and the lock that its word names.
#[derive(Clone, Copy)]
pub struct Ties {
    pub bound: Option<Cpu>,
    pub parent: Option<ThreadId>,
    pub word: Option<LockId>,
}

/// A CPU's indexes and marks.
#[derive(Clone, Copy)]
pub struct Marks {
    pub idx: u8,
    pub ridx: u8,
    pub resched: bool,
    pub slice_end: bool,
}

/// A CPU's counts.
#[derive(Clone, Copy)]
pub struct Counts {
    pub switches: u64,
    pub old_switches: u64,
    pub balance: u64,
}

/// A CPU's line, with its number.
#[derive(Clone, Copy)]
pub struct NumberedLine {
    pub cpu: Cpu,
    pub line: CpuLine,
}

/// The number of an entry, which is this.
fn entry_number(word: &[u8], k: u64) -> Option<u64>
    ensures { result ≡ entry_number k word.now }
{
    let n = number(word, 65_536)?;
    if n == k { Some(n) } else { None }
}

/// A thread's line, by its pieces.
fn thread_line(
    head: Head,
    priorities: Priorities,
    history: History,
    usage: CpuUse,
    past: Past,
    ties: Ties,
) -> ThreadLine
    ensures { result ≡ thread_line head priorities history usage past ties }
{
    ThreadLine {
        id: head.id,
        place: head.place,
        pos: head.position,
        class: head.class,
        nice: head.nice,
        base: priorities.base,
        lent: priorities.lent,
        priority: priorities.priority,
        run: history.run,
        slept: history.slept,
        ticks: usage.ticks,
        ltick: usage.ltick,
        ftick: usage.ftick,
        slice_count: past.slice_count,
        slept_at: past.slept_at,
        last: past.last,
        last_run: past.last_run,
        bound: ties.bound,
        parent: ties.parent,
        word: ties.word,
    }
}

impl<'a> Parts<'a> {
    /// The next part as an arrow.
    fn arrow(&mut self) -> Option<()>
        ensures { Takes (taken (keyword (codes "->")) self.old) result self.new }
    {
        let word = self.next()?;
        if word == b"->".as_slice() {
            Some(())
        } else {
            None
        }
    }

    /// The words of the entry with this number, behind its first word.
    pub fn entry(&mut self, k: u64, first: &[u8]) -> Option<Entry>
        ensures { Takes (entry_form k (first.now ∷ self.old)) result self.new }
    {
        entry_number(first, k)?;
        let worker = self.worker()?;
        let now = self.amount()?;
        let event = self.event()?;
        self.arrow()?;
        let reply = self.reply()?;
        Some(Entry {
            worker,
            event,
            now,
            reply,
        })
    }

    fn head(&mut self) -> Option<Head>
        ensures { Takes (form4 head thread final_place class_named nice self.old) result self.new }
    {
        let id = self.thread()?;
        let standing = self.final_place()?;
        Some(Head {
            id,
            place: standing.place,
            position: standing.position,
            class: self.class()?,
            nice: self.nice()?,
        })
    }

    fn priorities(&mut self) -> Option<Priorities>
        ensures { Takes (form3 priorities priority (maybe priority) priority self.old) result self.new }
    {
        Some(Priorities {
            base: self.priority()?,
            lent: self.maybe_priority()?,
            priority: self.priority()?,
        })
    }

    fn history(&mut self) -> Option<History>
        ensures { Takes (form2 history amount amount self.old) result self.new }
    {
        Some(History {
            run: self.amount()?,
            slept: self.amount()?,
        })
    }

    fn usage(&mut self) -> Option<CpuUse>
        ensures { Takes (form3 usage amount amount amount self.old) result self.new }
    {
        Some(CpuUse {
            ticks: self.amount()?,
            ltick: self.amount()?,
            ftick: self.amount()?,
        })
    }

    fn past(&mut self) -> Option<Past>
        ensures { Takes (form4 past amount amount cpu amount self.old) result self.new }
    {
        Some(Past {
            slice_count: self.amount()?,
            slept_at: self.amount()?,
            last: self.cpu()?,
            last_run: self.amount()?,
        })
    }

    fn ties(&mut self) -> Option<Ties>
        ensures { Takes (form3 ties (maybe cpu) (maybe thread) lock_name self.old) result self.new }
    {
        Some(Ties {
            bound: self.maybe_cpu()?,
            parent: self.maybe_thread()?,
            word: self.lock_name()?,
        })
    }

    /// The words of a thread's line, behind its t.
    pub fn thread_line(&mut self) -> Option<ThreadLine>
        ensures { Takes (thread_form self.old) result self.new }
    {
        let head = self.head()?;
        let priorities = self.priorities()?;
        let history = self.history()?;
        let usage = self.usage()?;
        let past = self.past()?;
        let ties = self.ties()?;
        Some(thread_line(head, priorities, history, usage, past, ties))
    }

    fn marks(&mut self) -> Option<Marks>
        ensures { Takes (form4 marks bucket bucket flag flag self.old) result self.new }
    {
        Some(Marks {
            idx: self.bucket()?,
            ridx: self.bucket()?,
            resched: self.flag()?,
            slice_end: self.flag()?,
        })
    }

    fn counts(&mut self) -> Option<Counts>
        ensures { Takes (form3 counts amount amount amount self.old) result self.new }
    {
        Some(Counts {
            switches: self.amount()?,
            old_switches: self.amount()?,
            balance: self.amount()?,
        })
    }

    /// The words of a CPU's line, behind its c.
    pub fn cpu_line(&mut self) -> Option<NumberedLine>
        ensures { Takes (cpu_form self.old) result self.new }
    {
        let cpu = self.cpu()?;
        let marks = self.marks()?;
        let counts = self.counts()?;
        let line = CpuLine {
            idx: marks.idx,
            ridx: marks.ridx,
            resched: marks.resched,
            slice_end: marks.slice_end,
            switches: counts.switches,
            old_switches: counts.old_switches,
            balance: counts.balance,
        };
        Some(NumberedLine { cpu, line })
    }
}
