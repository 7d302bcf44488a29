ghost use Rattle.std.specs.Prelude.{◌≡◌, ◌≤◌, ◌++◌, ◌∷◌, [], List, ℕ, Option, unwrap_or};
ghost use Rattle.ule_text.specs.Numerals.{number_of, digits_of};

/// What the bytes of a word so far say of the number that it may spell.
#[derive(Clone, Copy)]
pub struct Digits {
    // How many bytes there are: 0, 1, or 2 for more.
    count: u8,
    // Whether the first is a zero.
    zero: bool,
    // Whether all are digits.
    all: bool,
    // The value, at most `MOST`.
    value: u64,
}

/// What a greater number counts as.
const MOST: u64 = 4_294_967_296;

impl Digits {
    /// No byte.
    pub fn none() -> Self
        ensures { result ≡ digits_of [] }
    {
        Digits {
            count: 0,
            zero: false,
            all: true,
            value: 0,
        }
    }

    /// One more byte.
    pub fn push(&mut self, b: u8)
        ensures { (word : List ℕ) → self.old ≡ digits_of word → self.new ≡ digits_of (word ++ b ∷ []) }
    {
        if self.count == 0 {
            self.zero = b == b'0';
        }
        if self.count < 2 {
            self.count += 1;
        }
        self.all = self.all && b.is_ascii_digit();
        self.value = (self.value.min(MOST) * 10 + u64::from(b.saturating_sub(b'0'))).min(MOST);
    }

    /// The number that is spelled: 0, or digits without a leading zero. One above 2^32 is told as
    /// 2^32.
    pub fn number(&self) -> Option<u64>
        ensures value { (word : List ℕ) → self.now ≡ digits_of word → result ≡ number_of word }
        ensures small { unwrap_or result 0 ≤ MOST }
    {
        if self.count > 0 && self.all && !(self.zero && self.count > 1) {
            Some(self.value.min(MOST))
        } else {
            None
        }
    }
}
