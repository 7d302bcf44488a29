ghost use Rattle.std.specs.Prelude.{◌≡◌, ◌≢◌, ◌<◌, ◌≤◌, [], replicate};
ghost use Rattle.ule_runq.specs.Links.{JoinsLinks, LinksIn, LinksOut, SpellsLists, link_next, link_prev};
ghost use Rattle.ule_runq.specs.declared.runq.TheConstants.{RQ_NQS};

/// How many thread numbers there are.
pub const THREADS: u16 = 256;

/// What stands in a table for no thread, and for no bucket.
pub const NONE: u16 = 256;

/// The tables of a run queue, after `struct runq`, its `struct rqbits` and the links that each
/// thread has for its `struct rqhead`.
#[derive(Clone, Copy)]
pub struct Links {
    /// The status word: bit b is set where bucket b has a thread.
    pub status: u64,
    /// The first thread of each bucket, or 256.
    pub head: [u16; 64],
    /// The last thread of each bucket, or 256.
    pub tail: [u16; 64],
    /// The thread behind each thread in its bucket, or 256.
    pub next: [u16; 256],
    /// The thread before each thread in its bucket, or 256.
    pub prev: [u16; 256],
    /// The bucket of each thread, or 256 where it stands in none.
    pub bucket: [u16; 256],
}

impl Links {
    /// The tables of a run queue without threads.
    pub(crate) fn empty() -> Links
        ensures { SpellsLists result (replicate RQ_NQS []) }
    {
        Links {
            status: 0,
            head: [NONE; 64],
            tail: [NONE; 64],
            next: [NONE; 256],
            prev: [NONE; 256],
            bucket: [NONE; 256],
        }
    }

    // Lets `p` of bucket `b` lead to `n`, and back, where `NONE` stands before the head and behind
    // the tail.
    fn join(&mut self, b: u8, p: u16, n: u16)
        requires bucket { b < RQ_NQS }
        requires before { p ≤ NONE }
        requires behind { n ≤ NONE }
        ensures { JoinsLinks self.old self.new b p n }
    {
        if p == NONE {
            self.head[usize::from(b)] = n;
        } else {
            self.next[usize::from(p)] = n;
        }
        if n == NONE {
            self.tail[usize::from(b)] = p;
        } else {
            self.prev[usize::from(n)] = p;
        }
    }

    /// Links `t` in between `p` and `n` of bucket `b`.
    pub(crate) fn link_in(&mut self, b: u8, p: u16, t: u8, n: u16)
        requires bucket { b < RQ_NQS }
        requires before { p ≤ NONE }
        requires behind { n ≤ NONE }
        requires not_before { p ≢ t }
        requires not_behind { n ≢ t }
        ensures { LinksIn self.old self.new b p t n }
    {
        self.join(b, p, u16::from(t));
        self.join(b, u16::from(t), n);
        self.bucket[usize::from(t)] = u16::from(b);
        self.status |= 1u64 << b;
    }

    /// Takes `t` out from between its neighbours in bucket `b`.
    pub(crate) fn link_out(&mut self, b: u8, t: u8)
        requires bucket { b < RQ_NQS }
        requires before { link_prev self.old b t ≤ NONE }
        requires behind { link_next self.old b t ≤ NONE }
        ensures { LinksOut self.old self.new b t }
    {
        let p = self.prev[usize::from(t)];
        let n = self.next[usize::from(t)];
        self.join(b, p, n);
        self.bucket[usize::from(t)] = NONE;
        if self.head[usize::from(b)] == NONE {
            self.status &= !(1u64 << b);
        }
    }
}
