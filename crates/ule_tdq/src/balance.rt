ghost use Rattle.std.specs.Prelude.{◌≡◌, if◌then◌else◌};
ghost use Rattle.ule_model.specs.Start.{balance_count};
ghost use Rattle.ule_model.specs.Tick.{balance_after_tick, is_due, word_after_tick};
ghost use Rattle.ule_search.specs.Jitter.{stepped_word};

use ule_prio::Cpu;
use ule_search::stepped_word;

/// The balance count that a balance word gives, 64..=191.
fn balance_count(word: u32) -> u64
    ensures { result ≡ balance_count word }
{
    64 + u64::from(word) / (1 << 25)
}

/// Where CPU 0's balance word stands after its first step; another CPU's word takes none.
pub fn first_word(is_first: bool, word: u32) -> u32
    ensures { result ≡ (if is_first then stepped_word word else word) }
{
    if is_first { stepped_word(word) } else { word }
}

/// The balance count of CPU 0 that this word gives; another CPU has none.
pub fn first_balance(is_first: bool, word: u32) -> u64
    ensures { result ≡ (if is_first then balance_count word else 0) }
{
    if is_first { balance_count(word) } else { 0 }
}

/// Whether a tick makes a balance due, which is on CPU 0 alone.
pub fn is_due(cpu: Cpu, balance: u64) -> bool
    ensures { result ≡ is_due cpu balance }
{
    cpu.0 == 0 && balance <= 1
}

/// The balance count after a tick, drawn anew where it falls to 0.
pub fn balance_after_tick(cpu: Cpu, balance: u64, word: u32) -> u64
    ensures { result ≡ balance_after_tick cpu balance word }
{
    if is_due(cpu, balance) {
        balance_count(stepped_word(word))
    } else if cpu.0 == 0 {
        balance - 1
    } else {
        balance
    }
}

/// The balance word after a tick.
pub fn word_after_tick(cpu: Cpu, balance: u64, word: u32) -> u32
    ensures { result ≡ word_after_tick cpu balance word }
{
    if is_due(cpu, balance) {
        stepped_word(word)
    } else {
        word
    }
}
