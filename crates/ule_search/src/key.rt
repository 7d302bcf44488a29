ghost use Rattle.std.specs.Prelude.{◌≡◌, ◌<◌, ◌≤◌, ◌*◌, ◌^◌, length, take, ℕ, pos, negsuc, ◌-ℤ◌, ◌≤ℤ◌};
ghost use Rattle.ule_search.specs.Bounds.{AreKeys};
ghost use Rattle.ule_search.specs.Search.{keys_of, preference, word_after_search};

use crate::jitter::Jitter;
use ule_prio::Cpu;
use ule_topo::Looks;

/// What the key of a preferred CPU is less.
pub const PREFERENCE: u8 = 64;

fn preference(prefer: &Option<Cpu>, c: u8) -> u8
    ensures less { result ≡ preference prefer.now c }
    ensures few { result ≤ 64 }
{
    match *prefer {
        Some(p) => { if p.0 == c { PREFERENCE } else { 0 } }
        None => 0,
    }
}

// A key by the load and what it is less.
fn key(load: u32, less: u8) -> i64
    requires { less ≤ 127 }
    ensures number { result ≡ (pos (load * 256) -ℤ pos less) }
    ensures low { negsuc 126 ≤ℤ result }
    ensures high { result ≤ℤ pos (2 ^ 40) }
{
    i64::from(load) * 256 - i64::from(less)
}

/// The keys of all CPUs that were looked at, in the first places: 256 for each thread of a CPU's
/// load, less a number that is drawn, and less 64 for the preferred CPU. Each costs a draw.
pub fn draw_keys(looks: &Looks, prefer: Option<Cpu>, j: &mut Jitter) -> [i64; 16]
    ensures keys { take (length looks.now) result ≡ keys_of looks.now prefer j.old.word }
    ensures fit { AreKeys (take (length looks.now) result) }
    ensures word { j.new.word ≡ word_after_search looks.now j.old.word }
{
    let mut keys = [0; 16];
    for c in 0..looks.len() {
        let seen = looks.at(Cpu(c));
        let less = j.draw() + preference(&prefer, c);
        keys[usize::from(c)] = key(seen.load, less);
    }
    keys
}
