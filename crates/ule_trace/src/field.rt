// What a word of a trace spells, and the next part of a line by what it spells.
ghost use Rattle.std.specs.Prelude.{◌≡◌, min, ◌<◌, ◌≤◌, ◌==◌, ◌&&◌, nat_lt, length, slice_index, IfSome};
ghost use Rattle.std.specs.List.{list_all};
ghost use Rattle.ule_text.specs.Numerals.{is_digit, is_numeral, value_of_digits};
ghost use Rattle.ule_trace.specs.Parts.{taken, Takes};
ghost use Rattle.ule_trace.specs.Fields.{up_to, cpu, thread, priority, bucket, channel, lock, amount, nice, worker, maybe, lock_name, flag, kind_named, class_named, why_named, move_why_named};

use crate::parts::Parts;
use ule_prio::{Class, Cpu, Kind, LockId, Nice, Priority, ThreadId};
use ule_score::Why;
use ule_types::MoveWhy;

/// What a greater number counts as.
const MOST: u128 = 18_446_744_073_709_551_616;

/// Whether all bytes are digits.
fn are_digits(word: &[u8]) -> bool
    ensures { result ≡ list_all is_digit word.now }
{
    word.iter().all(|b| b.is_ascii_digit())
}

/// Whether the first of several digits is a zero.
fn has_leading_zero(word: &[u8]) -> bool
    requires { 0 < length word.now }
    ensures { result ≡ ((slice_index word.now 0 == 48) && nat_lt 1 (length word.now)) }
{
    word[0] == b'0' && word.len() > 1
}

/// Whether a word is a number: 0, or digits without a leading zero.
fn is_numeral(word: &[u8]) -> bool
    ensures { result ≡ is_numeral word.now }
{
    if word.is_empty() {
        return false;
    }
    if !are_digits(word) {
        return false;
    }
    !has_leading_zero(word)
}

/// The value of digits; one above 2^64 is told as 2^64.
fn value_of(word: &[u8]) -> u128
    ensures { result ≡ min (value_of_digits word.now) 18446744073709551616 }
{
    let mut value: u128 = 0;
    for b in word {
        value = (value.min(MOST) * 10 + u128::from(b.saturating_sub(b'0'))).min(MOST);
    }
    value
}

/// The number, of at most this, that a word spells.
pub fn number(word: &[u8], most: u64) -> Option<u64>
    ensures value { result ≡ up_to most word.now }
    ensures small { IfSome result (λ n. n ≤ most) }
{
    if !is_numeral(word) {
        return None;
    }
    let value = value_of(word);
    if value <= u128::from(most) {
        Some(value as u64)
    } else {
        None
    }
}

/// The number of a CPU.
pub fn cpu(word: &[u8]) -> Option<Cpu>
    ensures { result ≡ cpu word.now }
{
    let n = number(word, 15)?;
    Some(Cpu(n as u8))
}

/// The number of a thread.
pub fn thread(word: &[u8]) -> Option<ThreadId>
    ensures { result ≡ thread word.now }
{
    let n = number(word, 255)?;
    Some(ThreadId(n as u8))
}

/// A priority.
pub fn priority(word: &[u8]) -> Option<Priority>
    ensures { result ≡ priority word.now }
{
    let n = number(word, 255)?;
    Some(Priority(n as u8))
}

/// The number of a lock.
pub fn lock(word: &[u8]) -> Option<LockId>
    ensures { result ≡ lock word.now }
{
    let n = number(word, 24)?;
    Some(LockId(n as u8))
}

/// The number of a bucket.
pub fn bucket(word: &[u8]) -> Option<u8>
    ensures { result ≡ bucket word.now }
{
    let n = number(word, 63)?;
    Some(n as u8)
}

/// The number of a sleep channel.
pub fn channel(word: &[u8]) -> Option<u16>
    ensures { result ≡ channel word.now }
{
    let n = number(word, 65_535)?;
    Some(n as u16)
}

/// A nice value, before which a minus may stand; -0 is none.
fn nice(word: &[u8]) -> Option<Nice>
    ensures { result ≡ nice word.now }
{
    if word.is_empty() {
        return None;
    }
    if word[0] != b'-' {
        let n = number(word, 20)?;
        return Some(Nice(n as i8));
    }
    let n = number(word.split_at(1).1, 20)?;
    if n == 0 { None } else { Some(Nice(-(n as i8))) }
}

/// The number of a worker, behind its w.
fn worker(word: &[u8]) -> Option<u8>
    ensures { result ≡ worker word.now }
{
    if word.is_empty() || word[0] != b'w' {
        return None;
    }
    let n = number(word.split_at(1).1, 15)?;
    Some(n as u8)
}

/// A CPU, or none.
fn maybe_cpu(word: &[u8]) -> Option<Option<Cpu>>
    ensures { result ≡ maybe cpu word.now }
{
    if word == b"-".as_slice() {
        return Some(None);
    }
    let x = cpu(word)?;
    Some(Some(x))
}

/// A thread, or none.
fn maybe_thread(word: &[u8]) -> Option<Option<ThreadId>>
    ensures { result ≡ maybe thread word.now }
{
    if word == b"-".as_slice() {
        return Some(None);
    }
    let x = thread(word)?;
    Some(Some(x))
}

/// A priority, or none.
fn maybe_priority(word: &[u8]) -> Option<Option<Priority>>
    ensures { result ≡ maybe priority word.now }
{
    if word == b"-".as_slice() {
        return Some(None);
    }
    let x = priority(word)?;
    Some(Some(x))
}

/// The lock that a thread's word names, or none where it is blocked.
fn lock_name(word: &[u8]) -> Option<Option<LockId>>
    ensures { result ≡ lock_name word.now }
{
    if word == b"b".as_slice() {
        return Some(None);
    }
    let l = lock(word)?;
    Some(Some(l))
}

/// A truth value.
fn flag(word: &[u8]) -> Option<bool>
    ensures { result ≡ flag word.now }
{
    if word == b"1".as_slice() {
        return Some(true);
    }
    if word == b"0".as_slice() {
        return Some(false);
    }
    None
}

/// The kind of a queue.
pub fn kind_named(word: &[u8]) -> Option<Kind>
    ensures { result ≡ kind_named word.now }
{
    if word == b"real".as_slice() {
        return Some(Kind::Real);
    }
    if word == b"batch".as_slice() {
        return Some(Kind::Batch);
    }
    if word == b"idle".as_slice() {
        return Some(Kind::Idle);
    }
    None
}

/// A class of threads.
pub fn class_named(word: &[u8]) -> Option<Class>
    ensures { result ≡ class_named word.now }
{
    if word == b"ithd".as_slice() {
        return Some(Class::Ithd);
    }
    if word == b"rt".as_slice() {
        return Some(Class::Rt);
    }
    if word == b"fifo".as_slice() {
        return Some(Class::Fifo);
    }
    if word == b"ts".as_slice() {
        return Some(Class::Ts);
    }
    if word == b"idle".as_slice() {
        return Some(Class::Idle);
    }
    None
}

/// Why a CPU switches.
pub fn why_named(word: &[u8]) -> Option<Why>
    ensures { result ≡ why_named word.now }
{
    if word == b"yield".as_slice() {
        return Some(Why::Yield);
    }
    if word == b"resched".as_slice() {
        return Some(Why::Resched);
    }
    None
}

/// Why a thread is moved.
pub fn move_why_named(word: &[u8]) -> Option<MoveWhy>
    ensures { result ≡ move_why_named word.now }
{
    if word == b"steal".as_slice() {
        return Some(MoveWhy::Steal);
    }
    if word == b"balance".as_slice() {
        return Some(MoveWhy::Balance);
    }
    None
}

impl<'a> Parts<'a> {
    /// The next part as the number of a CPU.
    pub fn cpu(&mut self) -> Option<Cpu>
        ensures { Takes (taken cpu self.old) result self.new }
    {
        cpu(self.next()?)
    }

    /// As the number of a thread.
    pub fn thread(&mut self) -> Option<ThreadId>
        ensures { Takes (taken thread self.old) result self.new }
    {
        thread(self.next()?)
    }

    /// As a priority.
    pub fn priority(&mut self) -> Option<Priority>
        ensures { Takes (taken priority self.old) result self.new }
    {
        priority(self.next()?)
    }

    /// As the number of a bucket.
    pub fn bucket(&mut self) -> Option<u8>
        ensures { Takes (taken bucket self.old) result self.new }
    {
        bucket(self.next()?)
    }

    /// As the number of a sleep channel.
    pub fn channel(&mut self) -> Option<u16>
        ensures { Takes (taken channel self.old) result self.new }
    {
        channel(self.next()?)
    }

    /// As a nice value.
    pub fn nice(&mut self) -> Option<Nice>
        ensures { Takes (taken nice self.old) result self.new }
    {
        nice(self.next()?)
    }

    /// As a worker's number behind a w.
    pub fn worker(&mut self) -> Option<u8>
        ensures { Takes (taken worker self.old) result self.new }
    {
        worker(self.next()?)
    }

    /// As a CPU, or none.
    pub fn maybe_cpu(&mut self) -> Option<Option<Cpu>>
        ensures { Takes (taken (maybe cpu) self.old) result self.new }
    {
        maybe_cpu(self.next()?)
    }

    /// As a thread, or none.
    pub fn maybe_thread(&mut self) -> Option<Option<ThreadId>>
        ensures { Takes (taken (maybe thread) self.old) result self.new }
    {
        maybe_thread(self.next()?)
    }

    /// As a priority, or none.
    pub fn maybe_priority(&mut self) -> Option<Option<Priority>>
        ensures { Takes (taken (maybe priority) self.old) result self.new }
    {
        maybe_priority(self.next()?)
    }

    /// As the lock that a thread's word names, or none.
    pub fn lock_name(&mut self) -> Option<Option<LockId>>
        ensures { Takes (taken lock_name self.old) result self.new }
    {
        lock_name(self.next()?)
    }

    /// As a truth value.
    pub fn flag(&mut self) -> Option<bool>
        ensures { Takes (taken flag self.old) result self.new }
    {
        flag(self.next()?)
    }

    /// As the kind of a queue.
    pub fn kind(&mut self) -> Option<Kind>
        ensures { Takes (taken kind_named self.old) result self.new }
    {
        kind_named(self.next()?)
    }

    /// As a class.
    pub fn class(&mut self) -> Option<Class>
        ensures { Takes (taken class_named self.old) result self.new }
    {
        class_named(self.next()?)
    }

    /// As why a CPU switches.
    pub fn why(&mut self) -> Option<Why>
        ensures { Takes (taken why_named self.old) result self.new }
    {
        why_named(self.next()?)
    }

    /// As why a thread is moved.
    pub fn move_why(&mut self) -> Option<MoveWhy>
        ensures { Takes (taken move_why_named self.old) result self.new }
    {
        move_why_named(self.next()?)
    }

    /// As a number of at most this.
    pub fn number(&mut self, most: u64) -> Option<u64>
        ensures { Takes (taken (up_to most) self.old) result self.new }
    {
        number(self.next()?, most)
    }

    /// As any other number.
    pub fn amount(&mut self) -> Option<u64>
        ensures { Takes (taken amount self.old) result self.new }
    {
        self.number(u64::MAX)
    }
}
