// A line, byte by byte.
ghost use Rattle.std.specs.Prelude.{◌≡◌, ◌++◌, ◌∷◌, [], List, ℕ};
ghost use Rattle.ule_text.specs.Words.{Cut, cut_at, no_cut, word_ended, is_unprinted};
ghost use Rattle.ule_scenario.specs.WordsKept.{pieces_kept, line_kept};

use crate::token::Token;
use crate::words::Words;
use ule_text::WordSoFar;

/// What is kept of a line up to a byte: its words, and the word since the last space.
#[derive(Drop)]
pub struct Pieces {
    pub(crate) words: Words,
    word: WordSoFar,
}

impl Pieces {
    /// No byte.
    fn none() -> Self
        ensures { result ≡ pieces_kept no_cut }
    {
        Pieces {
            words: Words::none(),
            word: WordSoFar::none(),
        }
    }

    /// Forgets the bytes.
    fn clear(&mut self)
        ensures { self.new ≡ pieces_kept no_cut }
    {
        self.words.clear();
        self.word = WordSoFar::none();
    }

    /// A space, or the end of the line.
    #[tactic(auto, using(crate::proofs::Lines::with_none, crate::proofs::Lines::with_some, crate::proofs::Lines::blank_is))]
    #[inline(always)]
    pub fn end_word(&mut self)
        ensures { (c : Cut) → self.old ≡ pieces_kept c → self.new ≡ pieces_kept (word_ended c) }
    {
        if !self.word.is_blank() {
            self.words.push(Token::of(&self.word));
            self.word = WordSoFar::none();
        }
    }

    /// One more byte.
    fn push(&mut self, b: u8)
        ensures { (c : Cut) → self.old ≡ pieces_kept c → self.new ≡ pieces_kept (cut_at c b) }
    {
        if b == b' ' {
            self.end_word();
        } else {
            self.word.push(b);
        }
    }
}

/// Whether a byte may not stand in a line.
fn is_unprinted(b: u8) -> bool
    ensures { result ≡ is_unprinted b }
{
    b < 32 || b > 126
}

/// What is kept of a line of which more bytes may come.
#[derive(Drop)]
pub struct LineSoFar {
    /// Whether it has a byte.
    pub(crate) any: bool,
    /// Whether it has a byte that may not stand there.
    pub(crate) bad: bool,
    pub(crate) pieces: Pieces,
}

impl LineSoFar {
    /// No byte.
    pub fn none() -> Self
        ensures { result ≡ line_kept [] }
    {
        LineSoFar {
            any: false,
            bad: false,
            pieces: Pieces::none(),
        }
    }

    /// Forgets the bytes.
    pub fn clear(&mut self)
        ensures { self.new ≡ line_kept [] }
    {
        self.any = false;
        self.bad = false;
        self.pieces.clear();
    }

    /// One more byte, which is no newline.
    #[tactic(auto, using(crate::proofs::Lines::line_grows))]
    pub fn push(&mut self, b: u8)
        ensures { (bytes : List ℕ) → self.old ≡ line_kept bytes → self.new ≡ line_kept (bytes ++ b ∷ []) }
    {
        self.any = true;
        if is_unprinted(b) {
            self.bad = true;
        }
        self.pieces.push(b);
    }

    /// More bytes, none of which is a newline.
    pub fn push_all(&mut self, more: &[u8])
        ensures { (bytes : List ℕ) → self.old ≡ line_kept bytes → self.new ≡ line_kept (bytes ++ more.now) }
    {
        for b in more {
            self.push(*b);
        }
    }
}
