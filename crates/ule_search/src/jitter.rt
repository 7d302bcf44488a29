ghost use Rattle.std.specs.Prelude.{◌≡◌, ◌<◌, ◌≤◌};
ghost use Rattle.ule_search.specs.Jitter.{draw_of_word, stepped_word};

/// A jitter word after a step.
pub fn stepped_word(word: u32) -> u32
    ensures { result ≡ stepped_word word }
{
    ((u64::from(word) * 69069 + 5) % (1 << 32)) as u32
}

/// The word that a worker's searches draw from, after the jitter of `cpu_search`.
#[derive(Clone, Copy)]
pub struct Jitter {
    pub word: u32,
}

impl Jitter {
    /// Steps the word and draws a number, 0..=63.
    pub fn draw(&mut self) -> u8
        ensures word { self.new.word ≡ stepped_word self.old.word }
        ensures number { result ≡ draw_of_word (stepped_word self.old.word) }
        ensures few { result ≤ 63 }
    {
        self.word = stepped_word(self.word);
        (self.word >> 26) as u8
    }
}
