ghost use Rattle.std.specs.Prelude.{◌≡◌, ◌≤◌, [], IfSome, option_and_then};
ghost use Rattle.std.specs.List.{filter_map, range_with_len};
ghost use Rattle.ule_model.specs.WorldValue.{held_line, line_among, line_at, line_in_hands};
ghost use Rattle.ule_seq.specs.Outcomes.{HasFinals, IsBare, queue_lines};

use crate::world::World;
use ule_prio::{Cpu, ThreadId};
use ule_score::{Place, ThreadRecord};
use ule_tdq::line_of;
use ule_types::{Outcome, ThreadLine};

impl World {
    /// Sets the final lines of this world in an outcome that has none yet: a line for each thread
    /// in rising number, a line for each CPU, and the time at the end, in hz ticks since the boot.
    pub fn finals(&self, now: u64, out: &mut Outcome)
        requires { IsBare out.old }
        ensures { HasFinals self.now out.old out.new now }
    {
        self.set_threads(256, out);
        self.set_cpus(out);
        out.set_now(now);
    }

    /// Sets the lines of the first so many threads.
    fn set_threads(&self, count: u16, out: &mut Outcome)
        requires within { count ≤ 256 }
        requires none { out.old.threads ≡ [] }
        ensures { out.new ≡ record out.old {
          threads = filter_map (line_at self.now) (range_with_len 0 count);
        } }
    {
        for t in 0..count {
            if let Some(line) = self.thread_line(ThreadId(t as u8)) {
                out.set_thread(line);
            }
        }
    }

    /// Sets the lines of all CPUs.
    fn set_cpus(&self, out: &mut Outcome)
        requires { out.old.cpus ≡ [] }
        ensures { out.new ≡ record out.old { cpus = queue_lines self.now.values } }
    {
        for guarded in &self.values {
            if let Some(line) = guarded.cpu_line() {
                let next = out.cpus().len() as u8;
                out.set_cpu(Cpu(next), line);
            }
        }
    }

    /// What a trace tells of a thread.
    fn thread_line(&self, t: ThreadId) -> Option<ThreadLine>
        ensures line { result ≡ line_at self.now t }
        ensures number { IfSome result (λ l. l.id ≡ t) }
    {
        if let Some(line) = self.line_under_locks(t) {
            return Some(line);
        }
        self.line_in_hands(t)
    }

    /// What a trace tells of a thread that is under a lock.
    fn line_under_locks(&self, t: ThreadId) -> Option<ThreadLine>
        ensures line { result ≡ line_among self.now.values t }
        ensures number { IfSome result (λ l. l.id ≡ t) }
    {
        for guarded in &self.values {
            if let Some(line) = guarded.line(t) {
                return Some(line);
            }
        }
        None
    }

    /// What a trace tells of a thread that is in a hand.
    fn line_in_hands(&self, t: ThreadId) -> Option<ThreadLine>
        ensures line { result ≡ line_in_hands 0 self.now.hands t }
        ensures number { IfSome result (λ l. l.id ≡ t) }
    {
        for (worker, hand) in self.hands.iter().enumerate() {
            if let Some(line) = line_in_hand(worker as u8, hand.get(), t) {
                return Some(line);
            }
        }
        None
    }
}

/// The line of a thread in a worker's hand, if it is the one there.
fn line_in_hand(worker: u8, held: Option<ThreadRecord>, t: ThreadId) -> Option<ThreadLine>
    ensures line { result ≡ option_and_then (held_line worker t) held }
    ensures number { IfSome result (λ l. l.id ≡ t) }
{
    match held {
        Some(r) => held_line(worker, &r, t),
        None => None,
    }
}

/// The line of a thread in a worker's hand, if it is this thread.
fn held_line(worker: u8, r: &ThreadRecord, t: ThreadId) -> Option<ThreadLine>
    ensures line { result ≡ held_line worker t r.now }
    ensures number { IfSome result (λ l. l.id ≡ t) }
{
    if r.id == t {
        Some(line_of(r, Place::Hand(worker), 0, None))
    } else {
        None
    }
}
