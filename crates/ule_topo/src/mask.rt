ghost use Rattle.std.specs.Prelude.{◌≡◌, ◌≤◌, ℕ, false};
ghost use Rattle.ule_topo.specs.Mask.{all_cpus, has_cpu, is_inside, meets, without_cpu};

use ule_prio::Cpu;

/// The mask of the first `n` CPUs, 0..=16: bit c for CPU c.
pub fn all_cpus(n: u8) -> u16
    requires { n ≤ 16 }
    ensures { result ≡ all_cpus n }
{
    ((1u32 << n) - 1) as u16
}

/// Whether CPU `c` is in a mask, after `CPU_ISSET`.
#[tactic(auto, using(crate::proofs::MaskLaws::has_cpu_read))]
pub fn has_cpu(mask: u16, c: Cpu) -> bool
    ensures { result ≡ has_cpu mask c }
{
    mask & (1u16 << c.0) != 0
}

/// The mask without CPU `c`, after `CPU_CLR`.
pub fn without_cpu(mask: u16, c: Cpu) -> u16
    ensures value { result ≡ without_cpu c mask }
    ensures out { has_cpu result c ≡ false }
    ensures rest { (d : ℕ) → has_cpu mask d ≡ false → has_cpu result d ≡ false }
{
    mask & !(1u16 << c.0)
}

/// Whether each CPU of a mask is in another one, after `CPU_SUBSET`.
#[tactic(auto, unfolding(crate::specs::Mask::is_inside))]
pub fn is_inside(inner: u16, outer: u16) -> bool
    ensures { result ≡ is_inside inner outer }
{
    inner & outer == inner
}

/// Whether two masks have a CPU in common, after `CPU_OVERLAP`.
#[tactic(auto, unfolding(crate::specs::Mask::meets))]
pub fn meets(one: u16, other: u16) -> bool
    ensures { result ≡ meets one other }
{
    one & other != 0
}
