ghost use Rattle.std.specs.Prelude.{◌≡◌, ◌≢◌, ℕ, ◌+◌, ◌%◌, ◌^◌, ◌<◌, None, IfOk, IsTrue};
ghost use Rattle.ule_model.specs.CpuValue.{thread_in, value_laid};
ghost use Rattle.ule_model.specs.OpeningValues.{balance_word_before, opening_limbo, opening_queue, opening_value};
ghost use Rattle.ule_model.specs.Start.{record_of};
ghost use Rattle.ule_score.specs.Settings.{are_settings};

use crate::lock::{FIRST_CHAIN_LOCK, Guarded, LIMBO_LOCK};
use crate::records::{record_of, unborn_record};
use std::alloc::Global;
use ule_io::Memory;
use ule_prio::{Cpu, LockId};
use ule_score::Settings;
use ule_sleep::{Chain, Limbo};
use ule_tdq::Tdq;
use ule_types::{Setup, ThreadSpec};

/// What a lock guards at the start of a setup: the CPU on which its declared threads are queued in
/// their order, a chain without sleepers, limbo with the unborn threads, or nothing where the CPU
/// isn't there. It takes all the memory that the lock's value ever needs.
pub fn opening(alloc: Global, s: &Setup, l: LockId) -> Result<Guarded, Memory>
    ensures { IfOk result (λ g. g ≡ opening_value s.now l) }
{
    let l = l.0;
    if l < s.cpus {
        Ok(Guarded::queue(opening_queue(alloc, s, Cpu(l))?))
    } else if l < FIRST_CHAIN_LOCK {
        Ok(Guarded::nothing())
    } else if l < LIMBO_LOCK {
        Ok(Guarded::chain(Chain::start(alloc, l - FIRST_CHAIN_LOCK)?))
    } else {
        Ok(Guarded::limbo(opening_limbo(alloc, s)?))
    }
}

/// A CPU with its declared threads queued in their order.
fn opening_queue(alloc: Global, s: &Setup, c: Cpu) -> Result<Tdq, Memory>
    requires { c < s.now.cpus }
    ensures { IfOk result (λ v. v ≡ opening_queue s.now c) }
{
    let mut tdq = Tdq::start(alloc, c, &s.settings, balance_word(s.jitter))?;
    let specs = s.threads.as_slice();
    for spec in specs {
        lay_own(&s.settings, c, spec, &mut tdq);
    }
    Ok(tdq)
}

/// Where CPU 0's balance word starts.
fn balance_word(jitter: u32) -> u32
    ensures { result ≡ (jitter + 16) % 2 ^ 32 }
{
    ((u64::from(jitter) + 16) % (1 << 32)) as u32
}

/// Queues a declared thread on a CPU, where it is the thread's.
fn lay_own(settings: &Settings, c: Cpu, spec: &ThreadSpec, tdq: &mut Tdq)
    requires settings { IsTrue (are_settings settings.now) }
    requires absent { thread_in tdq.old spec.now.id ≡ None }
    ensures own { c ≡ spec.now.cpu → tdq.new ≡ value_laid (record_of settings.now spec.now) tdq.old }
    ensures elsewhere { c ≢ spec.now.cpu → tdq.new ≡ tdq.old }
{
    if c == spec.cpu {
        tdq.lay(record_of(settings, spec));
    }
}

/// Limbo with the unborn threads of a setup.
fn opening_limbo(alloc: Global, s: &Setup) -> Result<Limbo, Memory>
    ensures { IfOk result (λ v. v ≡ opening_limbo s.now) }
{
    let mut limbo = Limbo::start(alloc)?;
    let unborn = s.unborn.as_slice();
    for t in unborn {
        limbo.unborn(unborn_record(*t));
    }
    Ok(limbo)
}
