ghost use Rattle.std.specs.Prelude.{◌≡◌, ◌<◌, ◌≤◌, ◌^◌, ℕ, List, nat_lt, length, unwrap_or, is_none, is_some, pos, ◌==◌, ◌&&◌};
ghost use Rattle.ule_text.specs.SoFar.{so_far};
ghost use Rattle.ule_scenario.specs.Names.{name_of};
ghost use Rattle.ule_scenario.specs.Tokens.{is_comment, no_token, token_of};
ghost use Rattle.ule_scenario.specs.Forms.{number, number_fault, nice_fault, parent_fault, is_dash};

use crate::name::{Name, any_name};
use ule_text::WordSoFar;

/// What counts of a word.
#[derive(Clone, Copy)]
pub struct Token {
    pub name: Name,
    /// Whether it begins with `#`.
    pub comment: bool,
    /// Whether it begins with a minus.
    pub minus: bool,
    /// The number that it spells, without its minus.
    pub number: Option<u64>,
}

/// The name that a word is.
#[tactic(auto, unfolding(ule_text::specs::SoFar::so_far))]
fn name_of(word: &WordSoFar) -> Name
    ensures { (bytes : List ℕ) → word.now ≡ so_far bytes → result ≡ name_of bytes }
{
    if word.is_longer() {
        Name::Other
    } else {
        any_name(word.front())
    }
}

impl Token {
    /// No word.
    pub fn none() -> Self
        ensures { result ≡ no_token }
    {
        Token {
            name: Name::Other,
            comment: false,
            minus: false,
            number: None,
        }
    }

    /// What counts of a word that has ended.
    #[tactic(auto, unfolding(crate::specs::Tokens::token_of))]
    pub fn of(word: &WordSoFar) -> Self
        ensures value { (bytes : List ℕ) → word.now ≡ so_far bytes → result ≡ token_of bytes }
        ensures small { unwrap_or (number result) 0 ≤ 2 ^ 32 }
    {
        Token {
            name: name_of(word),
            comment: word.begins_with(b'#'),
            minus: word.is_negative(),
            number: word.number(),
        }
    }

    /// The number that the word is.
    pub fn number(&self) -> Option<u64>
        ensures { result ≡ number self.now }
    {
        if self.minus { None } else { self.number }
    }

    /// The same, or 0.
    pub fn value(&self) -> u64
        ensures { result ≡ unwrap_or (number self.now) 0 }
    {
        match self.number() {
            Some(n) => n,
            None => 0,
        }
    }

    /// The reason against the word as a number from low to high: 3 spelling, 4 range.
    pub fn number_fault(&self, low: u64, high: u64) -> Option<u8>
        ensures { result ≡ number_fault low high self.now }
    {
        let Some(n) = self.number() else {
            return Some(3);
        };
        if low <= n && n <= high { None } else { Some(4) }
    }

    /// The reason against the word as a nice value.
    pub fn nice_fault(&self) -> Option<u8>
        ensures { result ≡ nice_fault self.now }
    {
        let Some(n) = self.number else {
            return Some(3);
        };
        if self.minus && n == 0 {
            return Some(3);
        }
        if n <= 20 { None } else { Some(4) }
    }

    /// Whether the word is `-`.
    pub fn is_dash(&self) -> bool
        ensures { result ≡ is_dash self.now.name }
    {
        match self.name {
            Name::Dash => true,
            _ => false,
        }
    }

    /// The reason against the word as the number of a group, or `-`.
    pub fn parent_fault(&self) -> Option<u8>
        ensures { result ≡ parent_fault self.now }
    {
        if self.is_dash() {
            None
        } else {
            self.number_fault(0, 14)
        }
    }

    /// Whether the word is a number below this.
    pub fn is_below(&self, n: u8) -> bool
        ensures { result ≡ (is_some (number self.now) && nat_lt (unwrap_or (number self.now) 0) n) }
    {
        match self.number() {
            Some(m) => m < u64::from(n),
            None => false,
        }
    }
}

impl Default for Token {
    fn default() -> Self {
        Token::none()
    }
}
