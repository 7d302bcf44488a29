//! What the rule says of the table between any two steps, whatever the workers do.
ghost use Rattle.ule_words.specs.Theorem.{HoldersHaveValues, NumbersStandOnce, WordsTellPlaces};

use ule_micro::Parts;

/// The worker that a lock's word names has the lock's value. A thread whose word names a lock that a
/// worker holds, which has no change pending, stands under that lock. Each number from 1 to the ticket
/// is that of one entry, in the list of one worker.
pub fn table_shows<P: Parts>(parts: &P)
    ensures holders { HoldersHaveValues (P.means parts.now) }
    ensures places { WordsTellPlaces (P.means parts.now) }
    ensures numbers { NumbersStandOnce (P.means parts.now) }
{}
