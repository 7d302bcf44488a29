ghost use Rattle.std.specs.Prelude.{◌≡◌, false, IfOk};
ghost use Rattle.ule_model.specs.Rounds.{Play, round, rounds};
ghost use Rattle.ule_seq.specs.Outcomes.{IsOutcomeOf};
ghost use Rattle.ule_seq.specs.Playing.{IsPlay, IsPlaying};

use crate::player::{GREATEST_ROUNDS, Player};
use std::alloc::Global;
use ule_io::Memory;
use ule_types::{Outcome, Setup};

/// A round: each worker has one turn, in rising number. Says whether any had a further item.
fn round(player: &mut Player, s: &Setup) -> bool
    requires { IsPlaying s.now player.old }
    ensures played { (p : Play) → IsPlay s.now player.old p → IsPlay s.now player.new (round p) }
    ensures ended { result ≡ false → (p : Play) → IsPlay s.now player.old p → round p ≡ p }
    ensures plays { IsPlaying s.now player.new }
{
    let mut moved = false;
    for worker in 0..s.cpus {
        let finished = player.turn(s, worker).is_finished();
        if !finished {
            moved = true;
        }
    }
    moved
}

/// All rounds, until every worker is at the end of its script.
fn run(player: &mut Player, s: &Setup)
    requires { IsPlaying s.now player.old }
    ensures { (p : Play) → IsPlay s.now player.old p → IsPlay s.now player.new (rounds 65536 p) }
{
    for _round in 0..GREATEST_ROUNDS {
        if !round(player, s) {
            return;
        }
    }
}

/// Plays a setup in rounds, until every worker is at the end of its script. All memory is taken
/// before the first turn.
pub fn play(alloc: Global, s: &Setup) -> Result<Outcome, Memory>
    ensures { IfOk result (λ o. IsOutcomeOf s.now o) }
{
    let mut player = Player::start(alloc, s)?;
    run(&mut player, s);
    Ok(player.outcome())
}
