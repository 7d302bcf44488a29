ghost use Rattle.std.specs.Prelude.{◌≡◌, ◌<◌, ◌≤◌, IfOk, None, Some};
ghost use Rattle.ule_model.specs.Rounds.{opening_courses};
ghost use Rattle.ule_seq.specs.Playing.{AreAhead};

use std::alloc::Global;
use ule_io::Memory;
use ule_program::Program;
use ule_types::{Item, Reply, Setup};

/// Where a worker stands: its next command, the command begun, and the item that it gave and that
/// waits for its turn; none where the worker is at its end.
#[derive(Drop)]
pub struct Course {
    pub(crate) next: u32,
    pub(crate) program: Program,
    pub(crate) item: Option<Item>,
}

impl Course {
    ghost use Rattle.ule_program.specs.Hearing.{CanHear};
    ghost use Rattle.ule_seq.specs.Playing.{GoesOn, IsOpening, comes_next, waiting};

    /// A worker before its first command.
    pub(crate) fn start(s: &Setup, worker: u8) -> Course
        requires workers { worker < 16 }
        requires worker { worker < s.now.cpus }
        ensures { IsOpening s.now worker result }
    {
        let mut course = Course {
            next: 0,
            program: Program::start(s, worker),
            item: None,
        };
        course.go_on(s, worker);
        course
    }

    /// Goes on to the next item of the worker's program, where no event was given.
    pub(crate) fn go_on(&mut self, s: &Setup, worker: u8)
        requires worker { worker < 16 }
        ensures { GoesOn s.now worker self.old None self.new }
    {
        self.item = self.program.next(None);
        self.begin_further(s, worker);
    }

    /// Goes on to the next item of the worker's program, which is told the reply and the time of
    /// the event that was given.
    #[inline]
    pub(crate) fn hear(&mut self, s: &Setup, worker: u8, reply: &Reply, now: u64)
        requires worker { worker < 16 }
        requires hears { CanHear (Some (reply.now, now)) self.old.program }
        ensures { GoesOn s.now worker self.old (Some (reply.now, now)) self.new }
    {
        self.item = self.program.hear(reply, now);
        self.begin_further(s, worker);
    }

    /// Begins the commands that come next, until one gives an item or none is left.
    #[inline(always)]
    fn begin_further(&mut self, s: &Setup, worker: u8)
        requires { worker < 16 }
        ensures { comes_next s.now worker self.old ≡ waiting s.now worker self.new }
    {
        loop {
            if self.item.is_some() {
                return;
            }
            if self.next >= s.scripts.len(worker) {
                return;
            }
            self.program.begin(s.scripts.at(worker, self.next));
            self.next += 1;
            self.item = self.program.next(None);
        }
    }
}

/// Each worker before its first command.
pub(crate) fn opening_courses(alloc: Global, s: &Setup) -> Result<Vec<Course>, Memory>
    requires { s.now.cpus ≤ 16 }
    ensures { IfOk result (λ courses. AreAhead s.now (opening_courses s.now) courses.items) }
{
    let mut courses = Vec::new(alloc);
    for worker in 0..s.cpus {
        let Ok(()) = courses.push(Course::start(s, worker)) else {
            return Err(Memory);
        };
    }
    Ok(courses)
}
