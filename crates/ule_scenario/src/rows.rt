// What a line is refused for, by its words alone.
ghost use Rattle.std.specs.Prelude.{◌≡◌, ◌<◌, ◌≤◌, ℕ, nat_lt, length, List, [], ◌∷◌};
ghost use Rattle.ule_prio.specs.Class.{is_within};
ghost use Rattle.ule_scenario.specs.WordsKept.{seen};
ghost use Rattle.ule_scenario.specs.declared.token.Token.{Token};
ghost use Rattle.ule_scenario.specs.Forms.{place_of_line, least_words, setting_place, is_class, is_bound_word, first_fault, number_faults, setting_fault, class_fault, is_header_word, is_header};
ghost use Rattle.ule_scenario.specs.Reasons.{is_bad_count, has_unknown_word, is_no_base, has_no_base};

use crate::name::Name;
use crate::tail::first_of_two;
use crate::token::Token;
use crate::words::Words;

/// The place of a line with this first word.
pub(crate) fn place_of_line(name: Name) -> u8
    ensures { result ≡ place_of_line name }
{
    match name {
        Name::Header => 1,
        Name::Set => 2,
        Name::Jitter => 3,
        Name::Cpus => 4,
        Name::Group => 5,
        Name::Thread | Name::Unborn => 6,
        Name::Script
        | Name::Tick
        | Name::Time
        | Name::Yield
        | Name::Resched
        | Name::Sleep
        | Name::Wake
        | Name::Lend
        | Name::Unlend
        | Name::Renice
        | Name::Fork
        | Name::Exit
        | Name::Idle
        | Name::Balance
        | Name::Look => 7,
        Name::Weave | Name::Turns => 8,
        Name::End => 9,
        _ => 0,
    }
}

/// The words that its form needs.
pub(crate) fn least_words(name: Name) -> usize
    ensures value { result ≡ least_words name }
    ensures bound { result < 6 }
{
    match name {
        Name::Set | Name::Lend | Name::Renice => 3,
        Name::Group => 4,
        Name::Thread => 5,
        Name::Header
        | Name::Jitter
        | Name::Cpus
        | Name::Unborn
        | Name::Script
        | Name::Turns
        | Name::Time
        | Name::Sleep
        | Name::Wake
        | Name::Unlend
        | Name::Fork
        | Name::Look => 2,
        _ => 1,
    }
}

/// The place of a setting in their order, or 4.
pub(crate) fn setting_place(name: Name) -> u8
    ensures value { result ≡ setting_place name }
    ensures bound { result < 5 }
{
    match name {
        Name::Interact => 0,
        Name::Slice => 1,
        Name::Preempt => 2,
        Name::Steal => 3,
        _ => 4,
    }
}

/// Whether it is a class.
pub(crate) fn is_class(name: Name) -> bool
    ensures { result ≡ is_class name }
{
    match name {
        Name::Ts | Name::Ithd | Name::Rt | Name::Fifo | Name::Idle => true,
        _ => false,
    }
}

/// Whether it is `bound`.
pub(crate) fn is_bound_word(name: Name) -> bool
    ensures { result ≡ is_bound_word name }
{
    match name {
        Name::Bound => true,
        _ => false,
    }
}

/// Whether it is `ule-scenario`.
pub(crate) fn is_header_word(name: Name) -> bool
    ensures { result ≡ is_header_word name }
{
    match name {
        Name::Header => true,
        _ => false,
    }
}

/// Whether the number of a `cpus` line is spelled well and is not 1..=16.
pub(crate) fn is_bad_count(words: &Words, first: Name) -> bool
    ensures { (line : List Token) → words.now ≡ seen line → result ≡ is_bad_count line first }
{
    if first != Name::Cpus {
        return false;
    }
    match words.word(1).number() {
        Some(n) => !(1 <= n && n <= 16),
        None => false,
    }
}

/// Whether the words of a `thread` line that are no numbers are others than it has.
fn thread_has_unknown(words: &Words) -> bool
    ensures { (line : List Token) → words.now ≡ seen line → result ≡ has_unknown_word line Name.Thread }
{
    !is_class(words.word(2).name)
        || (words.has(5) && !is_bound_word(words.word(5).name))
        || words.has(6)
}

/// Whether a word that is no number, or one after the last, is not as the form has it.
pub(crate) fn has_unknown_word(words: &Words, first: Name) -> bool
    ensures { (line : List Token) → words.now ≡ seen line → result ≡ has_unknown_word line first }
{
    match first {
        Name::Set => 4 <= setting_place(words.word(1).name) || words.has(3),
        Name::Thread => thread_has_unknown(words),
        Name::Group | Name::Turns => false,
        _ => words.has(least_words(first)),
    }
}

/// The reason against the number of a setting.
fn setting_fault(name: Name, t: &Token) -> Option<u8>
    ensures { result ≡ setting_fault name t.now }
{
    match name {
        Name::Interact => t.number_fault(1, 100),
        Name::Slice => t.number_fault(6, 1000),
        Name::Preempt => t.number_fault(0, 255),
        Name::Steal => t.number_fault(1, 64),
        _ => None,
    }
}

/// The reason against the word behind a class.
fn class_fault(name: Name, t: &Token) -> Option<u8>
    ensures { result ≡ class_fault name t.now }
{
    match name {
        Name::Ithd | Name::Rt | Name::Fifo | Name::Idle => t.number_fault(0, 255),
        _ => t.nice_fault(),
    }
}

/// The first reason against the numbers of a thread's line.
#[tactic(auto, using(crate::proofs::Faults::three_faults))]
fn thread_fault(words: &Words) -> Option<u8>
    ensures { (line : List Token) → words.now ≡ seen line → result ≡ first_fault (number_faults line Name.Thread) }
{
    let id = words.word(1).number_fault(0, 255);
    let class = class_fault(words.word(2).name, &words.word(3));
    let cpu = words.word(4).number_fault(0, 15);
    first_of_two(id, first_of_two(class, cpu))
}

/// The first reason against the numbers of a group's line.
#[tactic(auto, using(crate::proofs::Faults::group_faults))]
fn group_fault(words: &Words) -> Option<u8>
    ensures { (line : List Token) → words.now ≡ seen line → result ≡ first_fault (number_faults line Name.Group) }
{
    let id = words.word(1).number_fault(0, 14);
    let parent = words.word(2).parent_fault();
    let cpus = words.cpus.fault();
    first_of_two(id, first_of_two(parent, cpus))
}

/// The first reason against the numbers of a line, from left to right.
pub(crate) fn fault_of(words: &Words, first: Name) -> Option<u8>
    ensures { (line : List Token) → words.now ≡ seen line → result ≡ first_fault (number_faults line first) }
{
    match first {
        Name::Set => setting_fault(words.word(1).name, &words.word(2)),
        Name::Jitter => words.word(1).number_fault(0, 4_294_967_295),
        Name::Cpus => words.word(1).number_fault(1, 16),
        Name::Group => group_fault(words),
        Name::Thread => thread_fault(words),
        Name::Turns => words.turns.fault(),
        Name::Unborn | Name::Wake | Name::Unlend | Name::Fork => words.word(1).number_fault(0, 255),
        Name::Script | Name::Look => words.word(1).number_fault(0, 15),
        Name::Time => words.word(1).number_fault(1, 1_000_000),
        Name::Sleep => words.word(1).number_fault(0, 65_535),
        Name::Lend => first_of_two(
            words.word(1).number_fault(0, 255),
            words.word(2).number_fault(0, 255),
        ),
        Name::Renice => first_of_two(
            words.word(1).number_fault(0, 255),
            words.word(2).nice_fault(),
        ),
        _ => None,
    }
}

/// Whether the words are `ule-scenario 1`.
pub(crate) fn is_header(words: &Words) -> bool
    ensures { (line : List Token) → words.now ≡ seen line → result ≡ is_header line }
{
    is_header_word(words.word(0).name)
        && words.has(1)
        && !words.has(2)
        && words.word(1).value() == 1
}

/// Whether a priority is outside the range of a class.
fn is_no_base(name: Name, p: u64) -> bool
    ensures { result ≡ is_no_base name p }
{
    match name {
        Name::Ithd => p > 47,
        Name::Rt | Name::Fifo => p < 48 || p > 79,
        Name::Idle => p < 224,
        _ => false,
    }
}

/// Whether the priority of a `thread` line is outside the range of its class.
pub(crate) fn has_no_base(words: &Words, first: Name) -> bool
    ensures { (line : List Token) → words.now ≡ seen line → result ≡ has_no_base line first }
{
    if first != Name::Thread {
        return false;
    }
    is_no_base(words.word(2).name, words.word(3).value())
}
