// Lines that are the name of a command and nothing else.
ghost use Rattle.std.specs.Prelude.{◌≡◌, ◌≤◌, List, ℕ, Option, Some, Ok, IfOk, length};
ghost use Rattle.ule_scenario.specs.LoneCommand.{lone_command, lone_reason};
ghost use Rattle.ule_scenario.specs.Scenario.{next_line};
ghost use Rattle.ule_scenario.specs.TextKept.{reading_unless};

use crate::draft::Draft;
use crate::reason::{Reason, Refusal};
use crate::same::is_text;
use ule_io::Memory;
use ule_types::Command;

/// The command of such a line.
#[tactic(auto, unfolding(crate::specs::LoneCommand::lone_command))]
pub(crate) fn lone_command(line: &[u8]) -> Option<Command>
    ensures { result ≡ lone_command line.now }
{
    if is_text(line, b"yield") {
        return Some(Command::Yield);
    }
    if is_text(line, b"tick") {
        return Some(Command::Tick);
    }
    if is_text(line, b"resched") {
        return Some(Command::Resched);
    }
    if is_text(line, b"exit") {
        return Some(Command::Exit);
    }
    if is_text(line, b"idle") {
        return Some(Command::Idle);
    }
    if is_text(line, b"balance") {
        return Some(Command::Balance);
    }
    None
}

impl Draft {
    /// The first reason against a line of this command.
    fn lone_reason(&self, c: &Command) -> Option<Reason>
        ensures value { result ≡ lone_reason self.now c.now }
        ensures few { length self.now.turns ≤ 4096 }
    {
        let misplaced = if self.place == 0 { 1 } else { 6 };
        if self.place != 7 {
            return Some(Reason {
                reason: misplaced,
                detail: 0,
            });
        }
        self.over_budget(&Some(*c))
    }
}

/// Takes line n, which is the name of this command, or tells why it is refused.
pub(crate) fn take_lone(draft: &mut Draft, n: u32, c: &Command) -> Result<Option<Refusal>, Memory>
    ensures { (bytes : List ℕ) → lone_command bytes ≡ Some c.now → IfOk result (λ x. reading_unless x draft.new ≡ next_line n (Ok draft.old) bytes) }
{
    if let Some(x) = draft.lone_reason(c) {
        return Ok(Some(Refusal {
            line: n,
            reason: x.reason,
            detail: x.detail,
        }));
    }
    draft.command(*c)?;
    Ok(None)
}
