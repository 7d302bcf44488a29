// What is kept of the words of a line.
ghost use Rattle.std.specs.Prelude.{◌≡◌, ℕ, ◌<◌, ◌≤◌, ◌++◌, ◌∷◌, [], List, ◌^◌, nat_lt, length, drop, unwrap_or};
ghost use Rattle.ule_scenario.specs.Forms.{word, has_word, number};
ghost use Rattle.ule_scenario.specs.WordsKept.{first_words, seen};
ghost use Rattle.ule_scenario.specs.declared.token.Token.{Token};

use crate::tail::{CpuTail, TurnTail};
use crate::token::Token;
use arrayvec::ArrayVec;
use std::marker::Model;

/// The most words that a line of another form than turns and groups has.
const FIRST: usize = 6;

/// The first six words of a line, and how many there are.
#[derive(Drop)]
pub struct FirstWords {
    words: ArrayVec<Token, FIRST>,
    // 7 for more than 6.
    count: u8,
}

impl Model for FirstWords {
    ghost use Rattle.ule_scenario.specs.WordsValue.{WordsValue};

    ghost Value = { WordsValue };

    ghost use Rattle.ule_scenario.specs.WordsView.{words_shown};
    ghost use Rattle.std.specs.Prelude.{◌≤◌};

    ghost view = { words_shown };

    ghost invariant = { λ s. s.count ≤ 7 };
}

impl FirstWords {
    /// No word.
    fn none() -> Self
        ensures { result ≡ first_words [] }
    {
        FirstWords {
            words: ArrayVec::new(),
            count: 0,
        }
    }

    /// Forgets the words.
    fn clear(&mut self)
        ensures { self.new ≡ first_words [] }
    {
        self.words.clear();
        self.count = 0;
    }

    /// One more word.
    fn push(&mut self, t: Token)
        ensures { (line : List Token) → self.old ≡ first_words line → self.new ≡ first_words (line ++ t ∷ []) }
    {
        if !self.words.is_full() {
            self.words.push(t);
        }
        if self.count < 7 {
            self.count += 1;
        }
    }

    /// The word at this place.
    fn word(&self, k: usize) -> Token
        requires { k < 6 }
        ensures { (line : List Token) → self.now ≡ first_words line → result ≡ word line k }
    {
        match self.words.get(k) {
            Some(t) => *t,
            None => Token::none(),
        }
    }

    /// Whether there is a word at this place.
    fn has(&self, k: usize) -> bool
        requires { k < 7 }
        ensures { (line : List Token) → self.now ≡ first_words line → result ≡ has_word line k }
    {
        k < usize::from(self.count)
    }

    /// Whether there are fewer words than this.
    fn is_below(&self, n: usize) -> bool
        requires { n < 8 }
        ensures { (line : List Token) → self.now ≡ first_words line → result ≡ nat_lt (length line) n }
    {
        usize::from(self.count) < n
    }
}

/// What is kept of the words of a line: the first six, and those of which there may be more.
#[derive(Drop)]
pub struct Words {
    first: FirstWords,
    pub(crate) turns: TurnTail,
    pub(crate) cpus: CpuTail,
}

impl Words {
    /// No word.
    pub fn none() -> Self
        ensures { result ≡ seen [] }
    {
        Words {
            first: FirstWords::none(),
            turns: TurnTail::none(),
            cpus: CpuTail::none(),
        }
    }

    /// Forgets the words.
    pub fn clear(&mut self)
        ensures { self.new ≡ seen [] }
    {
        self.first.clear();
        self.turns.clear();
        self.cpus = CpuTail::none();
    }

    /// One more word.
    pub fn push(&mut self, t: Token)
        requires { unwrap_or (number t) 0 ≤ 2 ^ 32 }
        ensures { (line : List Token) → self.old ≡ seen line → self.new ≡ seen (line ++ t ∷ []) }
    {
        self.turns.push_behind(self.first.has(0), &t);
        self.cpus.push_behind(self.first.has(2), &t);
        self.first.push(t);
    }

    /// The word at this place, 0..=5.
    pub fn word(&self, k: usize) -> Token
        requires { k < 6 }
        ensures { (line : List Token) → self.now ≡ seen line → result ≡ word line k }
    {
        self.first.word(k)
    }

    /// Whether there is a word at this place, 0..=6.
    pub fn has(&self, k: usize) -> bool
        requires { k < 7 }
        ensures { (line : List Token) → self.now ≡ seen line → result ≡ has_word line k }
    {
        self.first.has(k)
    }

    /// Whether there are fewer words than this, 0..=7.
    pub fn is_below(&self, n: usize) -> bool
        requires { n < 8 }
        ensures { (line : List Token) → self.now ≡ seen line → result ≡ nat_lt (length line) n }
    {
        self.first.is_below(n)
    }
}
