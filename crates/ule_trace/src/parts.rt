// The parts of a text that a byte separates, one after another.
ghost use Rattle.std.specs.Prelude.{◌≡◌, ◌≤◌, ◌==◌, List, [], ◌∷◌, length, None, IfSome};
ghost use Rattle.std.specs.List.{position_or_len};
ghost use Rattle.ule_trace.specs.Parts.{parts_at};

use std::marker::Model;

/// Where the first part of a text ends: the place of the first separator, or the text's length.
fn end_of_part(text: &[u8], separator: u8) -> usize
    ensures place { result ≡ position_or_len (λ b. b == separator) text.now }
    ensures within { result ≤ length text.now }
{
    for (at, b) in text.iter().enumerate() {
        if *b == separator {
            return at;
        }
    }
    text.len()
}

/// The parts of a text that are left to be taken.
#[derive(Drop)]
pub struct Parts<'a> {
    rest: &'a [u8],
    separator: u8,
    // Whether a part is left, which may be empty.
    more: bool,
}

impl<'a> Model for Parts<'a> {
    ghost use Rattle.std.specs.Prelude.{List, ℕ};

    ghost Value = { List (List ℕ) };

    ghost use Rattle.ule_trace.specs.PartsLeft.{parts_left};

    ghost view = { parts_left };
}

impl<'a> Parts<'a> {
    /// All parts of a text.
    pub fn of(text: &'a [u8], separator: u8) -> Parts<'a>
        ensures { result ≡ parts_at separator text.now }
    {
        Parts {
            rest: text,
            separator,
            more: true,
        }
    }

    /// Takes the next part.
    pub fn next(&mut self) -> Option<&'a [u8]>
        ensures part { IfSome result (λ part. self.old ≡ part.now ∷ self.new) }
        ensures none { result ≡ None → self.old ≡ [] }
    {
        if !self.more {
            return None;
        }
        let at = end_of_part(self.rest, self.separator);
        if at < self.rest.len() {
            let (part, behind) = self.rest.split_at(at);
            self.rest = behind.split_at(1).1;
            Some(part)
        } else {
            self.more = false;
            Some(self.rest)
        }
    }

    /// Whether no part is left.
    pub fn is_at_end(&self) -> bool
        ensures { result ≡ (length self.now == 0) }
    {
        !self.more
    }
}
