// The words of a line.
ghost use Rattle.std.specs.Prelude.{◌≡◌, ◌≤◌, length, IsTrue};
ghost use Rattle.ule_trace.specs.Line.{optional_word};
ghost use Rattle.ule_trace.specs.FinalText.{lock_word};
ghost use Rattle.ule_trace.specs.Word.{word_text, is_short};

use ule_prio::{Cpu, LockId, Priority, ThreadId};

/// A word of a line.
#[derive(Clone, Copy)]
pub enum Word {
    /// A keyword, of at most 24 bytes.
    Text(&'static str),
    Number(u64),
    Signed(i8),
    /// A truth value.
    Flag(bool),
    /// What is not there.
    Absent,
}

pub fn thread(t: ThreadId) -> Word
    ensures { result ≡ Word.Number t }
{
    Word::Number(u64::from(t.0))
}

pub fn cpu(c: Cpu) -> Word
    ensures { result ≡ Word.Number c }
{
    Word::Number(u64::from(c.0))
}

pub fn priority(p: Priority) -> Word
    ensures { result ≡ Word.Number p }
{
    Word::Number(u64::from(p.0))
}

pub fn optional_thread(t: Option<ThreadId>) -> Word
    ensures text { word_text result ≡ optional_word t }
    ensures short { IsTrue (is_short result) }
{
    match t {
        Some(t) => thread(t),
        None => Word::Absent,
    }
}

pub fn optional_cpu(c: Option<Cpu>) -> Word
    ensures text { word_text result ≡ optional_word c }
    ensures short { IsTrue (is_short result) }
{
    match c {
        Some(c) => cpu(c),
        None => Word::Absent,
    }
}

pub fn optional_priority(p: Option<Priority>) -> Word
    ensures text { word_text result ≡ optional_word p }
    ensures short { IsTrue (is_short result) }
{
    match p {
        Some(p) => priority(p),
        None => Word::Absent,
    }
}

/// The lock that a thread's word names, or `b` where the word is blocked.
pub fn lock(l: Option<LockId>) -> Word
    ensures text { word_text result ≡ lock_word l }
    ensures short { IsTrue (is_short result) }
{
    match l {
        Some(l) => Word::Number(u64::from(l.0)),
        None => Word::Text("b"),
    }
}
