ghost use Rattle.std.specs.Prelude.{◌≡◌, ◌<◌, ◌≤◌, ◌^◌, unwrap_or, ◌++◌, ◌∷◌, [], List, ℕ, take, length, nat_lt, slice_index, ◌==◌};
ghost use Rattle.ule_text.specs.Words.{is_blank};
ghost use Rattle.ule_text.specs.Numerals.{is_negative, unsigned, number_of};
ghost use Rattle.ule_text.specs.SoFar.{so_far};

use crate::digits::Digits;
use crate::front::Front;

/// What is kept of a word of which more bytes may come.
#[derive(Drop)]
pub struct WordSoFar {
    front: Front,
    minus: bool,
    digits: Digits,
}

impl WordSoFar {
    /// No byte.
    #[tactic(auto, unfolding(crate::specs::SoFar::so_far))]
    pub fn none() -> Self
        ensures { result ≡ so_far [] }
    {
        WordSoFar {
            front: Front::none(),
            minus: false,
            digits: Digits::none(),
        }
    }

    /// One more byte.
    #[tactic(auto, using(crate::proofs::Signs::sign_stays, crate::proofs::Signs::unsigned_grows), unfolding(crate::specs::SoFar::so_far))]
    pub fn push(&mut self, b: u8)
        ensures { (word : List ℕ) → self.old ≡ so_far word → self.new ≡ so_far (word ++ b ∷ []) }
    {
        let begins = self.front.is_blank();
        self.front.push(b);
        if begins && b == b'-' {
            self.minus = true;
        } else {
            self.digits.push(b);
        }
    }

    /// Whether there is no byte.
    #[tactic(auto, unfolding(crate::specs::SoFar::so_far))]
    pub fn is_blank(&self) -> bool
        ensures { (word : List ℕ) → self.now ≡ so_far word → result ≡ is_blank word }
    {
        self.front.is_blank()
    }

    /// Whether there are more than 16.
    #[tactic(auto, unfolding(crate::specs::SoFar::so_far))]
    pub fn is_longer(&self) -> bool
        ensures { (word : List ℕ) → self.now ≡ so_far word → result ≡ nat_lt 16 (length word) }
    {
        self.front.is_longer()
    }

    /// Whether the first byte is this one.
    #[tactic(auto, unfolding(crate::specs::SoFar::so_far))]
    pub fn begins_with(&self, b: u8) -> bool
        requires { 0 < b }
        ensures { (word : List ℕ) → self.now ≡ so_far word → result ≡ (slice_index word 0 == b) }
    {
        self.front.begins_with(b)
    }

    /// The first bytes, 16 at most.
    #[tactic(auto, unfolding(crate::specs::SoFar::so_far))]
    pub fn front(&self) -> &[u8]
        ensures { (word : List ℕ) → self.now ≡ so_far word → result.now ≡ take 16 word }
    {
        self.front.as_slice()
    }

    /// Whether the word begins with a minus.
    #[tactic(auto, unfolding(crate::specs::SoFar::so_far))]
    pub fn is_negative(&self) -> bool
        ensures { (word : List ℕ) → self.now ≡ so_far word → result ≡ is_negative word }
    {
        self.minus
    }

    /// The number that the word spells behind its minus, if it has one. One above 2^32 is told as
    /// 2^32.
    #[tactic(auto, unfolding(crate::specs::SoFar::so_far))]
    pub fn number(&self) -> Option<u64>
        ensures value { (word : List ℕ) → self.now ≡ so_far word → result ≡ number_of (unsigned word) }
        ensures small { unwrap_or result 0 ≤ 2 ^ 32 }
    {
        self.digits.number()
    }
}
