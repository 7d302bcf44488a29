//! How an event acts on the values under the locks that a worker holds.
ghost use Rattle.std.specs.Prelude.{◌≡◌, ℕ, ◌∷◌, [], Some, nat_lt, if◌then◌else◌};
ghost use Rattle.ule_words.specs.Held.{held_values, held_with};
ghost use Rattle.ule_words.specs.Passes.{in_fields};

use crate::holding::{Held, Holding};
use std::mem;
use ule_micro::Parts;

/// Performs an event under the one or two locks that are held, at a time in hz ticks.
pub(crate) fn perform<P: Parts>(
    parts: &P,
    own: &mut P::Own,
    holding: &mut Holding<P::Value>,
    e: &P::Event,
    now: u64,
) -> P::Reply
    requires some { (x : _) × (holding.old.last ≡ Some x) }
    requires may { (P.means parts.now).may ((P.means parts.now).number own.old) e.now now ((P.means parts.now).hand own.old) (held_values (in_fields holding.old)) }
    ensures own { own.new ≡ (P.means parts.now).with_hand own.old ((P.means parts.now).act ((P.means parts.now).number own.old) e.now now ((P.means parts.now).hand own.old) (held_values (in_fields holding.old))).hand }
    ensures reply { result ≡ ((P.means parts.now).act ((P.means parts.now).number own.old) e.now now ((P.means parts.now).hand own.old) (held_values (in_fields holding.old))).reply }
    ensures held { in_fields holding.new ≡ held_with (in_fields holding.old) ((P.means parts.now).act ((P.means parts.now).number own.old) e.now now ((P.means parts.now).hand own.old) (held_values (in_fields holding.old))).values }
    ensures last { (x : _) × (y : _) × (holding.old.last ≡ Some x) × (holding.new.last ≡ Some y) × (y.lock ≡ x.lock) }
    ensures first { (y : _) → holding.new.first ≡ Some y → (x : _) × (holding.old.first ≡ Some x) × (y.lock ≡ x.lock) }
{
    let Some(last) = holding.last.take() else {
        unreachable!()
    };
    let Held { lock, mut value } = last;
    let reply = match holding.first.take() {
        None => parts.step(own, &mut value, e, now),
        Some(first) => {
            let Held {
                lock: other,
                value: mut second,
            } = first;
            let reply = perform_pair(parts, own, lock, &mut value, other, &mut second, e, now);
            let old = mem::replace(
                &mut holding.first,
                Some(Held {
                    lock: other,
                    value: second,
                }),
            );
            let None = old else { unreachable!() };
            reply
        }
    };
    let old = mem::replace(&mut holding.last, Some(Held { lock, value }));
    let None = old else { unreachable!() };
    reply
}

/// Performs an event under two locks, with the value of the lower lock first.
fn perform_pair<P: Parts>(
    parts: &P,
    own: &mut P::Own,
    lock: u8,
    value: &mut P::Value,
    other: u8,
    second: &mut P::Value,
    e: &P::Event,
    now: u64,
) -> P::Reply
    requires { (P.means parts.now).may ((P.means parts.now).number own.old) e.now now ((P.means parts.now).hand own.old) (held_values ((lock, value.old) ∷ (other, second.old) ∷ [])) }
    ensures own { own.new ≡ (P.means parts.now).with_hand own.old ((P.means parts.now).act ((P.means parts.now).number own.old) e.now now ((P.means parts.now).hand own.old) (held_values ((lock, value.old) ∷ (other, second.old) ∷ []))).hand }
    ensures reply { result ≡ ((P.means parts.now).act ((P.means parts.now).number own.old) e.now now ((P.means parts.now).hand own.old) (held_values ((lock, value.old) ∷ (other, second.old) ∷ []))).reply }
    ensures held { (lock, value.new) ∷ (other, second.new) ∷ [] ≡ held_with ((lock, value.old) ∷ (other, second.old) ∷ []) ((P.means parts.now).act ((P.means parts.now).number own.old) e.now now ((P.means parts.now).hand own.old) (held_values ((lock, value.old) ∷ (other, second.old) ∷ []))).values }
{
    if lock < other {
        return parts.step_pair(own, value, second, e, now);
    }
    parts.step_pair(own, second, value, e, now)
}
