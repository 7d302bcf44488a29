// The words of a line of which there may be many: turns, and the CPUs of a group.
ghost use Rattle.std.specs.Prelude.{◌≡◌, ◌≤◌, ◌<◌, ◌++◌, ◌∷◌, [], ◌+◌, ◌^◌, List, ℕ, Bool, Option, nat_le, drop, length, map, unwrap_or, Some, None};
ghost use Rattle.std.specs.List.{list_any};
ghost use Rattle.ule_scenario.specs.Forms.{first_fault, cpu_faults, nums, number, number_fault, has_word};
ghost use Rattle.ule_scenario.specs.Effects.{bits_of};
ghost use Rattle.ule_scenario.specs.TailKept.{turns_kept, cpus_kept, clamped};
ghost use Rattle.ule_scenario.specs.declared.token.Token.{Token};

use crate::token::Token;
use arrayvec::ArrayVec;
use std::marker::Model;

/// A line of turns is refused where it has more.
const TURNS: usize = 4097;

/// The first of two reasons.
pub(crate) fn first_of_two(a: Option<u8>, b: Option<u8>) -> Option<u8>
    ensures { result ≡ first_fault (a ∷ b ∷ []) }
{
    match a {
        Some(n) => Some(n),
        None => b,
    }
}

/// What is kept of turns.
#[derive(Drop)]
pub struct TurnTail {
    // Whether there is one.
    any: bool,
    // The first reason against them as numbers of workers.
    fault: Option<u8>,
    // The greatest.
    most: u64,
    // The first of them, each at most 255.
    first: ArrayVec<u8, TURNS>,
}

impl Model for TurnTail {
    ghost use Rattle.ule_scenario.specs.TailValue.{TurnsValue};

    ghost Value = { TurnsValue };

    ghost use Rattle.ule_scenario.specs.TailView.{turns_shown};

    ghost view = { turns_shown };
}

impl TurnTail {
    /// No turn.
    #[tactic(auto, unfolding(crate::specs::TailKept::turns_kept), using(crate::proofs::Tails::none_clamped))]
    pub fn none() -> Self
        ensures { result ≡ turns_kept [] }
    {
        TurnTail {
            any: false,
            fault: None,
            most: 0,
            first: ArrayVec::new(),
        }
    }

    /// Forgets the turns.
    #[tactic(auto, unfolding(crate::specs::TailKept::turns_kept), using(crate::proofs::Tails::none_clamped))]
    pub fn clear(&mut self)
        ensures { self.new ≡ turns_kept [] }
    {
        self.any = false;
        self.fault = None;
        self.most = 0;
        self.first.clear();
    }

    /// One more turn.
    #[tactic(auto, using(crate::proofs::Tails::turns_grow), unfolding(crate::specs::TailKept::turns_kept))]
    fn push(&mut self, t: &Token)
        ensures { (ts : List Token) → self.old ≡ turns_kept ts → self.new ≡ turns_kept (ts ++ t.now ∷ []) }
    {
        self.any = true;
        self.fault = first_of_two(self.fault, t.number_fault(0, 15));
        self.most = self.most.max(t.value());
        push_first(&mut self.first, t.value());
    }

    /// One more word of a line, which is a turn if a word is there before it.
    #[tactic(auto, using(crate::proofs::Tails::behind_first, crate::proofs::Tails::first_itself))]
    pub fn push_behind(&mut self, there: bool, t: &Token)
        ensures { (line : List Token) → self.old ≡ turns_kept (drop 1 line) → there ≡ has_word line 0 → self.new ≡ turns_kept (drop 1 (line ++ t.now ∷ [])) }
    {
        if there {
            self.push(t);
        }
    }

    /// The first reason against a turn.
    #[tactic(auto, unfolding(crate::specs::TailKept::turns_kept))]
    pub fn fault(&self) -> Option<u8>
        ensures { (ts : List Token) → self.now ≡ turns_kept ts → result ≡ first_fault (map (number_fault 0 15) ts) }
    {
        self.fault
    }

    /// Whether one is not below this.
    #[tactic(auto, using(crate::proofs::Tails::any_by_most, crate::proofs::Tails::length_nums), unfolding(crate::specs::TailKept::turns_kept))]
    pub fn reaches(&self, cpus: u8) -> bool
        ensures { (ts : List Token) → self.now ≡ turns_kept ts → result ≡ list_any (λ w. nat_le cpus w) (nums ts) }
    {
        self.any && u64::from(cpus) <= self.most
    }

    /// The first 4,097 of them, each at most 255.
    #[tactic(auto, unfolding(crate::specs::TailKept::turns_kept))]
    pub fn as_slice(&self) -> &[u8]
        ensures { (ts : List Token) → self.now ≡ turns_kept ts → result.now ≡ clamped (nums ts) }
    {
        self.first.as_slice()
    }
}

/// Appends a turn where there is room.
#[tactic(auto, using(crate::proofs::Tails::clamped_more, crate::proofs::Tails::clamped_full))]
fn push_first(first: &mut ArrayVec<u8, TURNS>, n: u64)
    ensures { (ns : List ℕ) → first.old.items ≡ clamped ns → first.new.items ≡ clamped (ns ++ n ∷ []) }
{
    if !first.is_full() {
        first.push(n.min(255) as u8);
    }
}

/// What is kept of the CPUs of a group.
#[derive(Clone, Copy)]
pub struct CpuTail {
    // The first reason against them as CPUs that rise.
    fault: Option<u8>,
    // Whether there is one.
    any: bool,
    // The least that may come next.
    next: u64,
    // The greatest.
    most: u64,
    // Their bits, while nothing is against them.
    bits: u16,
}

impl CpuTail {
    /// No CPU.
    #[tactic(auto, unfolding(crate::specs::TailKept::cpus_kept))]
    pub fn none() -> Self
        ensures { result ≡ cpus_kept [] }
    {
        CpuTail {
            fault: None,
            any: false,
            next: 0,
            most: 0,
            bits: 0,
        }
    }
}

/// The bits of some CPUs with one more, greater than all of them; none where there is a reason
/// against them.
fn bits_with(bits: u16, fault: Option<u8>, c: u64) -> u16
    ensures given { fault ≡ None → c ≤ 15 → bits + 2 ^ c < 2 ^ 16 → result ≡ bits + 2 ^ c }
    ensures none { (n : ℕ) → fault ≡ Some n → result ≡ 0 }
{
    match fault {
        Some(_) => 0,
        None => bits.saturating_add((1u32 << c.min(15)) as u16),
    }
}

impl CpuTail {
    /// One more CPU.
    fn push(&mut self, t: &Token)
        requires { unwrap_or (number t.now) 0 ≤ 2 ^ 32 }
        ensures { (ts : List Token) → self.old ≡ cpus_kept ts → self.new ≡ cpus_kept (ts ++ t.now ∷ []) }
    {
        self.fault = first_of_two(self.fault, t.number_fault(self.next, 15));
        self.bits = bits_with(self.bits, self.fault, t.value());
        self.any = true;
        self.next = t.value() + 1;
        self.most = self.most.max(t.value());
    }

    /// One more word of a line, which is a CPU if three words are there before it.
    #[tactic(auto, using(crate::proofs::Tails::behind_third, crate::proofs::Tails::third_itself))]
    pub fn push_behind(&mut self, there: bool, t: &Token)
        requires { unwrap_or (number t.now) 0 ≤ 2 ^ 32 }
        ensures { (line : List Token) → self.old ≡ cpus_kept (drop 3 line) → there ≡ has_word line 2 → self.new ≡ cpus_kept (drop 3 (line ++ t.now ∷ [])) }
    {
        if there {
            self.push(t);
        }
    }

    /// The first reason against a CPU.
    #[tactic(auto, unfolding(crate::specs::TailKept::cpus_kept))]
    pub fn fault(&self) -> Option<u8>
        ensures { (ts : List Token) → self.now ≡ cpus_kept ts → result ≡ first_fault (cpu_faults 0 ts) }
    {
        self.fault
    }

    /// Whether one is not below this.
    #[tactic(auto, using(crate::proofs::Tails::any_by_most, crate::proofs::Tails::length_nums), unfolding(crate::specs::TailKept::cpus_kept))]
    pub fn reaches(&self, cpus: u8) -> bool
        ensures { (ts : List Token) → self.now ≡ cpus_kept ts → result ≡ list_any (λ w. nat_le cpus w) (nums ts) }
    {
        self.any && u64::from(cpus) <= self.most
    }

    /// The bits of the CPUs, where nothing is against them.
    #[tactic(auto, unfolding(crate::specs::TailKept::cpus_kept))]
    pub fn bits(&self) -> u16
        ensures { (ts : List Token) → self.now ≡ cpus_kept ts → first_fault (cpu_faults 0 ts) ≡ None → result ≡ bits_of (nums ts) }
    {
        self.bits
    }
}
