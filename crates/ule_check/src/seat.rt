ghost use Rattle.std.specs.Prelude.{◌≡◌, ◌+◌, ◌^◌, ◌<◌, ◌≤◌, Some};
ghost use Rattle.ule_check.specs.Judge.{due_of};
ghost use Rattle.ule_check.specs.Seats.{comes_next, course_at, due_in, event_in, ticks_in, time_ahead, time_behind};
ghost use Rattle.ule_model.specs.Legal.{amount_in, opening_of};
ghost use Rattle.ule_program.specs.Hearing.{CanHear};
ghost use Rattle.ule_program.specs.Program.{next_of};
ghost use Rattle.ule_seq.specs.Playing.{script_of};

use ule_seq::{Program, STARTING_TIME};
use ule_types::{Event, Item, Reply, Setup};

/// Where a worker stands as the judge replays its program: its next command, the command begun,
/// the event that comes next, none at the end of the program; the time that its list has added
/// before that, in hz ticks; and the time of its last entry, or that of the start.
#[derive(Drop)]
pub struct Seat {
    pub next: u32,
    pub program: Program,
    pub event: Option<Event>,
    pub amount: u64,
    pub own: u64,
}

impl Seat {
    /// The seat of a worker before its first entry.
    pub(crate) fn start(s: &Setup, worker: u8) -> Seat
        requires workers { worker < 16 }
        requires worker { worker < s.now.cpus }
        requires fits { amount_in (script_of s.now worker) < 2 ^ 64 }
        ensures due { due_of 0 (opening_of s.now s.now.scripts worker) ≡ due_in s.now worker result }
        ensures own { result.own ≡ 20000 }
        ensures time { time_ahead s.now worker result ≤ amount_in (script_of s.now worker) }
    {
        let mut seat = Seat {
            next: 0,
            program: Program::start(s, worker),
            event: None,
            amount: 0,
            own: STARTING_TIME,
        };
        seat.go_on(s, worker, None);
        seat
    }

    /// Goes on to the worker's next event. `last` is the reply and the time of the event that was
    /// given before, if one was.
    fn go_on(&mut self, s: &Setup, worker: u8, last: Option<(Reply, u64)>)
        requires worker { worker < 16 }
        requires hears { CanHear last self.old.program }
        requires fits { time_behind s.now worker self.old last < 2 ^ 64 }
        ensures due { due_of self.old.amount (course_at s.now worker self.old last) ≡ due_in s.now worker self.new }
        ensures own { self.new.own ≡ self.old.own }
        ensures time { time_ahead s.now worker self.new ≤ time_behind s.now worker self.old last }
    {
        self.event = self.event_of_item(last);
        self.begin_further(s, worker);
    }

    /// Begins the commands that come next, until one gives an event or none is left.
    fn begin_further(&mut self, s: &Setup, worker: u8)
        requires worker { worker < 16 }
        requires fits { time_ahead s.now worker self.old < 2 ^ 64 }
        ensures due { comes_next s.now worker self.old ≡ due_in s.now worker self.new }
        ensures own { self.new.own ≡ self.old.own }
        ensures time { time_ahead s.now worker self.new ≤ time_ahead s.now worker self.old }
    {
        loop {
            if self.event.is_some() {
                return;
            }
            if self.next >= s.scripts.len(worker) {
                return;
            }
            self.program.begin(s.scripts.at(worker, self.next));
            self.next += 1;
            self.event = self.event_of_item(None);
        }
    }

    /// The next item of the command begun, if it is an event; time that it adds is noted.
    fn event_of_item(&mut self, last: Option<(Reply, u64)>) -> Option<Event>
        requires hears { CanHear last self.old.program }
        requires fits { self.old.amount + ticks_in (next_of last self.old.program).0 < 2 ^ 64 }
        ensures event { result ≡ event_in (next_of last self.old.program).0 }
        ensures after { self.new ≡ record self.old {
          program = (next_of last self.old.program).1;
          amount = self.old.amount + ticks_in (next_of last self.old.program).0;
        } }
    {
        match self.program.next(last) {
            Some(Item::Event(e)) => Some(e),
            Some(Item::Advance(ticks)) => {
                self.amount += u64::from(ticks);
                None
            }
            None => None,
        }
    }

    /// Goes on behind an entry of the worker, which tells this reply at this time.
    pub(crate) fn hear(&mut self, s: &Setup, worker: u8, reply: Reply, now: u64)
        requires worker { worker < 16 }
        requires hears { CanHear (Some (reply, now)) self.old.program }
        requires fits { time_behind s.now worker self.old (Some (reply, now)) < 2 ^ 64 }
        ensures due { due_of self.old.amount (course_at s.now worker self.old (Some (reply, now))) ≡ due_in s.now worker self.new }
        ensures own { self.new.own ≡ now }
        ensures time { time_ahead s.now worker self.new ≤ time_behind s.now worker self.old (Some (reply, now)) }
    {
        self.own = now;
        self.go_on(s, worker, Some((reply, now)));
    }
}
