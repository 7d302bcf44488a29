// The bytes of a text that no sink has taken yet.
ghost use Rattle.std.specs.Prelude.{◌≡◌, ℕ, ◌+◌, ◌*◌, ◌%◌, ◌<◌, ◌≤◌, List, [], ◌∷◌, ◌++◌, length, drop, IsTrue, OnOk};
ghost use Rattle.std.specs.Fmt.{decimal, signed_decimal};
ghost use Rattle.std.specs.List.{flat_map, list_all};
ghost use Rattle.ule_trace.specs.Held.{Moves};
ghost use Rattle.ule_trace.specs.Line.{optional_word, flag_word, spaced, worker_word};
ghost use Rattle.ule_trace.specs.Word.{word_text, is_short};

use crate::word::Word;
use arrayvec::ArrayVec;
use itoa::Buffer;
use std::marker::Model;
use ule_io::{Sink, WriteFault, write_all};
use ule_prio::{Cpu, Nice, ThreadId};

/// How many bytes are held back at most.
pub const CAPACITY: usize = 8192;

/// No line is longer, in bytes.
pub const LINE: usize = 600;

/// The bytes of a text that no sink has taken yet.
#[derive(Drop)]
pub struct Held {
    bytes: ArrayVec<u8, CAPACITY>,
}

impl Model for Held {
    ghost use Rattle.std.specs.Prelude.{ℕ, List};

    ghost Value = { List ℕ };

    ghost view = { λ h. h.bytes.items };
}

impl Held {
    pub fn new() -> Self
        ensures { result ≡ [] }
    {
        Held {
            bytes: ArrayVec::new(),
        }
    }

    pub fn as_slice(&self) -> &[u8]
        ensures { result.now ≡ self.now }
    {
        self.bytes.as_slice()
    }

    /// The bytes behind the first, which is the space before the first word.
    pub fn unspaced(&self) -> &[u8]
        ensures { result.now ≡ drop 1 self.now }
    {
        let bytes = self.bytes.as_slice();
        if bytes.is_empty() {
            return bytes;
        }
        bytes.split_at(1).1
    }

    /// Appends a byte.
    pub fn byte(&mut self, b: u8)
        requires { length self.old < CAPACITY }
        ensures { self.new ≡ self.old ++ b ∷ [] }
    {
        self.bytes.push(b);
    }

    /// Appends a text, byte by byte: where the text is known, that is a few moves.
    #[inline(always)]
    pub fn text(&mut self, t: &str)
        requires { length self.old + length t.now ≤ CAPACITY }
        ensures { self.new ≡ self.old ++ t.now }
    {
        let bytes = t.as_bytes();
        for b in bytes {
            self.byte(*b);
        }
    }

    /// Appends a text whose length isn't known.
    fn long_text(&mut self, t: &str)
        requires { length self.old + length t.now ≤ CAPACITY }
        ensures { self.new ≡ self.old ++ t.now }
    {
        self.bytes.try_extend_from_slice(t.as_bytes()).unwrap();
    }

    // Appends the last digit of a number.
    #[inline]
    fn last_digit(&mut self, n: u32)
        requires { length self.old < CAPACITY }
        ensures { self.new ≡ self.old ++ (48 + n % 10) ∷ [] }
    {
        self.byte(b'0' + (n % 10) as u8);
    }

    // Appends a number of one digit.
    #[tactic(auto, using(crate::proofs::Digits::one_digit))]
    #[inline]
    fn one_digit(&mut self, n: u32)
        requires small { n < 10 }
        requires room { length self.old + 1 ≤ CAPACITY }
        ensures text { self.new ≡ self.old ++ decimal n }
        ensures growth { length self.new ≤ length self.old + 1 }
    {
        self.last_digit(n);
    }

    /// Appends a number of at most two digits.
    #[tactic(auto, using(crate::proofs::Digits::more_digits))]
    #[inline]
    pub fn two_digits(&mut self, n: u32)
        requires small { n < 100 }
        requires room { length self.old + 2 ≤ CAPACITY }
        ensures text { self.new ≡ self.old ++ decimal n }
        ensures growth { length self.new ≤ length self.old + 2 }
    {
        if n < 10 {
            self.one_digit(n);
            return;
        }
        self.one_digit(n / 10);
        self.last_digit(n);
    }

    /// Appends a number of at most three digits.
    #[tactic(auto, using(crate::proofs::Digits::more_digits))]
    #[inline]
    pub fn three_digits(&mut self, n: u32)
        requires small { n < 1000 }
        requires room { length self.old + 3 ≤ CAPACITY }
        ensures text { self.new ≡ self.old ++ decimal n }
        ensures growth { length self.new ≤ length self.old + 3 }
    {
        if n < 10 {
            self.one_digit(n);
            return;
        }
        self.two_digits(n / 10);
        self.last_digit(n);
    }

    // Appends a number of at most four digits.
    #[tactic(auto, using(crate::proofs::Digits::more_digits))]
    #[inline]
    fn four_digits(&mut self, n: u32)
        requires small { n < 10000 }
        requires room { length self.old + 4 ≤ CAPACITY }
        ensures text { self.new ≡ self.old ++ decimal n }
        ensures growth { length self.new ≤ length self.old + 4 }
    {
        if n < 10 {
            self.one_digit(n);
            return;
        }
        self.three_digits(n / 10);
        self.last_digit(n);
    }

    /// Appends a number of at most five digits.
    #[tactic(auto, using(crate::proofs::Digits::more_digits))]
    #[inline]
    pub fn five_digits(&mut self, n: u32)
        requires small { n < 100000 }
        requires room { length self.old + 5 ≤ CAPACITY }
        ensures text { self.new ≡ self.old ++ decimal n }
        ensures growth { length self.new ≤ length self.old + 5 }
    {
        if n < 10 {
            self.one_digit(n);
            return;
        }
        self.four_digits(n / 10);
        self.last_digit(n);
    }

    // Appends a number of any length.
    fn long_number(&mut self, n: u64)
        requires { length self.old + 20 ≤ CAPACITY }
        ensures text { self.new ≡ self.old ++ decimal n }
        ensures growth { length self.new ≤ length self.old + 20 }
    {
        let mut digits = Buffer::new();
        self.long_text(digits.format(n));
    }

    /// Appends a number.
    pub fn number(&mut self, n: u64)
        requires { length self.old + 20 ≤ CAPACITY }
        ensures text { self.new ≡ self.old ++ decimal n }
        ensures growth { length self.new ≤ length self.old + 20 }
    {
        if n < 1000 {
            self.three_digits(n as u32);
        } else if n < 100_000 {
            self.five_digits(n as u32);
        } else {
            self.long_number(n);
        }
    }

    fn signed(&mut self, z: i8)
        requires { length self.old + 20 ≤ CAPACITY }
        ensures text { self.new ≡ self.old ++ signed_decimal z }
        ensures growth { length self.new ≤ length self.old + 20 }
    {
        let mut digits = Buffer::new();
        self.long_text(digits.format(z));
    }

    /// Appends a word.
    pub fn word(&mut self, w: Word)
        requires short { IsTrue (is_short w) }
        requires room { length self.old + 24 ≤ CAPACITY }
        ensures text { self.new ≡ self.old ++ word_text w }
        ensures growth { length self.new ≤ length self.old + 24 }
    {
        match w {
            Word::Text(t) => self.long_text(t),
            Word::Number(n) => self.number(n),
            Word::Signed(z) => self.signed(z),
            Word::Flag(true) => self.byte(b'1'),
            Word::Flag(false) => self.byte(b'0'),
            Word::Absent => self.byte(b'-'),
        }
    }

    /// Appends a keyword, behind a space.
    #[inline]
    pub fn keyword(&mut self, t: &str)
        requires short { length t.now ≤ 24 }
        requires room { length self.old + 25 ≤ CAPACITY }
        ensures text { self.new ≡ self.old ++ 32 ∷ t.now }
        ensures growth { length self.new ≤ length self.old + 25 }
    {
        self.byte(b' ');
        self.text(t);
    }

    /// Appends a number, behind a space.
    pub fn spaced_number(&mut self, n: u64)
        requires { length self.old + 25 ≤ CAPACITY }
        ensures text { self.new ≡ self.old ++ 32 ∷ decimal n }
        ensures growth { length self.new ≤ length self.old + 25 }
    {
        self.byte(b' ');
        self.number(n);
    }

    /// Appends a number below 256, behind a space.
    pub fn small(&mut self, n: u8)
        requires { length self.old + 25 ≤ CAPACITY }
        ensures text { self.new ≡ self.old ++ 32 ∷ decimal n }
        ensures growth { length self.new ≤ length self.old + 4 }
    {
        self.byte(b' ');
        self.three_digits(u32::from(n));
    }

    /// Appends the number of a thread, or what stands for none, behind a space.
    pub fn optional_thread(&mut self, t: Option<ThreadId>)
        requires { length self.old + 25 ≤ CAPACITY }
        ensures text { self.new ≡ self.old ++ 32 ∷ optional_word t }
        ensures growth { length self.new ≤ length self.old + 25 }
    {
        match t {
            Some(t) => self.small(t.0),
            None => self.keyword("-"),
        }
    }

    /// Appends the number of a CPU, or what stands for none, behind a space.
    pub fn optional_cpu(&mut self, c: Option<Cpu>)
        requires { length self.old + 25 ≤ CAPACITY }
        ensures text { self.new ≡ self.old ++ 32 ∷ optional_word c }
        ensures growth { length self.new ≤ length self.old + 25 }
    {
        match c {
            Some(c) => self.small(c.0),
            None => self.keyword("-"),
        }
    }

    /// Appends a worker, behind a space.
    pub fn worker(&mut self, w: u8)
        requires { length self.old + 25 ≤ CAPACITY }
        ensures text { self.new ≡ self.old ++ 32 ∷ worker_word w }
        ensures growth { length self.new ≤ length self.old + 25 }
    {
        self.byte(b' ');
        self.byte(b'w');
        self.three_digits(u32::from(w));
    }

    /// Appends a nice value, behind a space.
    pub fn nice(&mut self, n: Nice)
        requires { length self.old + 25 ≤ CAPACITY }
        ensures text { self.new ≡ self.old ++ 32 ∷ signed_decimal n }
        ensures growth { length self.new ≤ length self.old + 25 }
    {
        self.byte(b' ');
        self.signed(n.0);
    }

    /// Appends a truth value, behind a space.
    #[inline]
    pub fn flag(&mut self, b: bool)
        requires { length self.old + 25 ≤ CAPACITY }
        ensures text { self.new ≡ self.old ++ 32 ∷ flag_word b }
        ensures growth { length self.new ≤ length self.old + 25 }
    {
        self.byte(b' ');
        if b {
            self.byte(b'1');
        } else {
            self.byte(b'0');
        }
    }

    /// Appends a keyword and a number below 256, each behind a space.
    #[inline]
    pub fn named(&mut self, name: &str, n: u8)
        requires short { length name.now ≤ 24 }
        requires room { length self.old + 50 ≤ CAPACITY }
        ensures text { self.new ≡ self.old ++ spaced (name.now ∷ decimal n ∷ []) }
        ensures growth { length self.new ≤ length self.old + 50 }
    {
        self.keyword(name);
        self.small(n);
    }

    /// Appends a keyword and two numbers below 256, each behind a space.
    #[inline]
    pub fn named_pair(&mut self, name: &str, a: u8, b: u8)
        requires short { length name.now ≤ 24 }
        requires room { length self.old + 75 ≤ CAPACITY }
        ensures text { self.new ≡ self.old ++ spaced (name.now ∷ decimal a ∷ decimal b ∷ []) }
        ensures growth { length self.new ≤ length self.old + 75 }
    {
        self.keyword(name);
        self.small(a);
        self.small(b);
    }

    /// Appends a keyword, a number below 256 and another number, each behind a space.
    #[inline]
    pub fn named_number(&mut self, name: &str, a: u8, n: u64)
        requires short { length name.now ≤ 24 }
        requires room { length self.old + 75 ≤ CAPACITY }
        ensures text { self.new ≡ self.old ++ spaced (name.now ∷ decimal a ∷ decimal n ∷ []) }
        ensures growth { length self.new ≤ length self.old + 75 }
    {
        self.keyword(name);
        self.small(a);
        self.spaced_number(n);
    }

    /// Appends words, each behind a space.
    pub fn words(&mut self, words: &[Word])
        requires short { IsTrue (list_all is_short words.now) }
        requires room { length self.old + 25 * length words.now ≤ CAPACITY }
        ensures text { self.new ≡ self.old ++ flat_map (λ w. 32 ∷ word_text w) words.now }
        ensures growth { length self.new ≤ length self.old + 25 * length words.now }
    {
        for w in words {
            self.byte(b' ');
            self.word(*w);
        }
    }

    /// Writes what is held, unless there is room for a line behind it.
    pub fn make_room<K: Sink>(&mut self, out: &mut K) -> Result<(), WriteFault>
        ensures room { OnOk result (length self.new + LINE ≤ CAPACITY) }
        ensures moved { Moves (K.state out.old) (K.state out.new) self.old self.new result }
    {
        self.make_room_for(LINE, out)
    }

    /// Writes what is held, unless there is room for so many bytes behind it.
    pub fn make_room_for<K: Sink>(&mut self, room: usize, out: &mut K) -> Result<(), WriteFault>
        requires { room ≤ CAPACITY }
        ensures room { OnOk result (length self.new + room ≤ CAPACITY) }
        ensures moved { Moves (K.state out.old) (K.state out.new) self.old self.new result }
    {
        if self.bytes.len() + room <= CAPACITY {
            return Ok(());
        }
        let written = write_all(out, self.bytes.as_slice());
        self.bytes.clear();
        written
    }
}
