// Which task the words of a command line name.
ghost use Rattle.std.specs.Prelude.{◌≡◌, ◌≤◌, map, string_bytes, IfSome};
ghost use Rattle.ule_text.specs.Numerals.{number_of};
ghost use Rattle.ule_top.specs.Tasks.{HasNumber, lone_task, numbered_task, setup_number, task_of};

use ule_text::Digits;

/// The number of the greatest setup that can be made.
const MOST: u64 = 1000;

/// What a command line asks for.
#[derive(Clone, Copy)]
pub enum Task {
    /// To play a scenario in rounds and to write its trace.
    Run,
    /// To make the turns of a scenario one after another, and to write what each did and left.
    Weave,
    /// To judge the trace that stands right behind its scenario.
    Check,
    /// To play the setup that this number makes, 1..=1000, and to write one line of counts.
    Gen(u32),
    /// To write the plain text of the setup that this number makes, 1..=1000.
    Text(u32),
}

/// The number that a word spells: 0, or digits without a leading zero. One above 2^32 is told as
/// 2^32.
fn number_of(word: &[u8]) -> Option<u64>
    ensures { result ≡ number_of word.now }
{
    let mut digits = Digits::none();
    for b in word {
        digits.push(*b);
    }
    digits.number()
}

/// The number of a setup that a word spells.
fn setup_number(word: &[u8]) -> Option<u32>
    ensures value { result ≡ setup_number word.now }
    ensures small { IfSome result (λ n. (1 ≤ n) × (n ≤ 1000)) }
{
    let n = number_of(word)?;
    if n == 0 || n > MOST {
        return None;
    }
    Some(n as u32)
}

/// The task that a word alone names.
fn lone_task(name: &str) -> Option<Task>
    ensures value { result ≡ lone_task name.now }
    ensures number { IfSome result HasNumber }
{
    if name == "run" {
        return Some(Task::Run);
    }
    if name == "weave" {
        return Some(Task::Weave);
    }
    if name == "check" {
        return Some(Task::Check);
    }
    None
}

/// The task that a word names with the number of a setup.
fn numbered_task(name: &str, n: u32) -> Option<Task>
    requires least { 1 ≤ n }
    requires most { n ≤ 1000 }
    ensures value { result ≡ numbered_task name.now n }
    ensures number { IfSome result HasNumber }
{
    if name == "gen" {
        return Some(Task::Gen(n));
    }
    if name == "text" {
        return Some(Task::Text(n));
    }
    None
}

/// The task that words name; none where they are no task's.
pub fn task_of(words: &[String]) -> Option<Task>
    ensures value { result ≡ task_of (map string_bytes words.now) }
    ensures number { IfSome result HasNumber }
{
    match words {
        [name] => lone_task(name.as_str()),
        [name, number] => {
            let n = setup_number(number.as_str().as_bytes())?;
            numbered_task(name.as_str(), n)
        }
        _ => None,
    }
}
