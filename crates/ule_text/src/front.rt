ghost use Rattle.std.specs.Prelude.{◌≡◌, ◌<◌, ◌++◌, ◌∷◌, [], List, ℕ, take, length, nat_lt, slice_index, ◌==◌};
ghost use Rattle.ule_text.specs.Words.{is_blank};
ghost use Rattle.ule_text.specs.WordFront.{front_of};

use arrayvec::ArrayVec;
use std::marker::Model;

/// How many bytes of a word are kept: no word that means something has more.
pub const FRONT: usize = 16;

/// The first bytes of a word, and whether it has more.
#[derive(Drop)]
pub struct Front {
    first: ArrayVec<u8, FRONT>,
    longer: bool,
}

impl Model for Front {
    ghost use Rattle.ule_text.specs.WordFront.{WordFront};

    ghost Value = { WordFront };

    ghost use Rattle.ule_text.specs.FrontKept.{front_kept};

    ghost view = { front_kept };
}

impl Front {
    /// No byte.
    pub fn none() -> Self
        ensures { result ≡ front_of [] }
    {
        Front {
            first: ArrayVec::new(),
            longer: false,
        }
    }

    /// One more byte.
    pub fn push(&mut self, b: u8)
        ensures { (word : List ℕ) → self.old ≡ front_of word → self.new ≡ front_of (word ++ b ∷ []) }
    {
        if self.first.is_full() {
            self.longer = true;
        } else {
            self.first.push(b);
        }
    }

    /// Whether there is no byte.
    pub fn is_blank(&self) -> bool
        ensures { (word : List ℕ) → self.now ≡ front_of word → result ≡ is_blank word }
    {
        self.first.is_empty()
    }

    /// Whether there are more than 16.
    pub fn is_longer(&self) -> bool
        ensures { (word : List ℕ) → self.now ≡ front_of word → result ≡ nat_lt 16 (length word) }
    {
        self.longer
    }

    /// Whether the first byte is this one.
    pub fn begins_with(&self, b: u8) -> bool
        requires { 0 < b }
        ensures { (word : List ℕ) → self.now ≡ front_of word → result ≡ (slice_index word 0 == b) }
    {
        !self.first.is_empty() && self.first[0] == b
    }

    /// The first bytes, 16 at most.
    pub fn as_slice(&self) -> &[u8]
        ensures { (word : List ℕ) → self.now ≡ front_of word → result.now ≡ take 16 word }
    {
        self.first.as_slice()
    }
}
