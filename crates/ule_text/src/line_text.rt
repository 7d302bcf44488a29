ghost use Rattle.std.specs.Prelude.{◌≡◌, ℕ, ◌+◌, ◌<◌, ◌≤◌, List, [], ◌∷◌, ◌++◌, length};
ghost use Rattle.std.specs.Fmt.{decimal, signed_decimal};

use arrayvec::ArrayVec;
use itoa::Buffer;
use std::marker::Model;

/// How many bytes a text has at most.
pub const ROOM: usize = 600;

/// The bytes of a text that is written at once, as a line.
#[derive(Drop)]
pub struct LineText {
    bytes: ArrayVec<u8, ROOM>,
}

impl Model for LineText {
    ghost use Rattle.std.specs.Prelude.{ℕ, List};

    ghost Value = { List ℕ };

    ghost view = { λ t. t.bytes.items };
}

impl LineText {
    /// No byte.
    pub fn none() -> Self
        ensures { result ≡ [] }
    {
        LineText {
            bytes: ArrayVec::new(),
        }
    }

    /// All of the bytes.
    pub fn as_slice(&self) -> &[u8]
        ensures { result.now ≡ self.now }
    {
        self.bytes.as_slice()
    }

    /// Appends a byte.
    pub fn byte(&mut self, b: u8)
        requires { length self.old < ROOM }
        ensures { self.new ≡ self.old ++ b ∷ [] }
    {
        self.bytes.push(b);
    }

    /// Appends a text.
    pub fn text(&mut self, t: &str)
        requires { length self.old + length t.now ≤ ROOM }
        ensures { self.new ≡ self.old ++ t.now }
    {
        self.bytes.try_extend_from_slice(t.as_bytes()).unwrap();
    }

    /// Appends a number in plain digits.
    pub fn number(&mut self, n: u64)
        requires { length self.old + 20 ≤ ROOM }
        ensures text { self.new ≡ self.old ++ decimal n }
        ensures growth { length self.new ≤ length self.old + 20 }
    {
        let mut digits = Buffer::new();
        self.text(digits.format(n));
    }
}
