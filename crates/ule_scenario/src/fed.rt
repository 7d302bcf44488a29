// The bytes of a text so far.
ghost use Rattle.std.specs.Prelude.{◌≡◌, ◌<◌, ◌≤◌, ◌+◌, ℕ, length, false, List, [], ◌∷◌, ◌++◌, position, IfSome, IfNone, IfOk, OnOk};
ghost use Rattle.std.specs.List.{list_any};
ghost use Rattle.ule_scenario.specs.FirstLine.{is_newline, IsCut};
ghost use Rattle.ule_scenario.specs.Scenario.{IsReadAs, answer, read_bytes, refused};
ghost use Rattle.ule_scenario.specs.TextKept.{lines_shown};
ghost use Rattle.ule_scenario.specs.FedKept.{HasFed};

use crate::text::{Lines, Text};
use std::alloc::Global;
use ule_io::Memory;
use ule_types::{ScenarioFault, Setup};

/// The most bytes of a scenario.
const LIMIT: u32 = 1_048_576;

/// The text of the bytes so far, and how many they are.
#[derive(Drop)]
pub struct Fed {
    // 1,048,577 for more.
    pub(crate) count: u32,
    pub(crate) text: Text,
    ghost few: { text.lines.count ≤ count },
}

/// The index of the first newline.
fn place_of_newline(text: &[u8]) -> Option<usize>
    ensures { result ≡ position is_newline text.now }
{
    text.iter().position(|b| *b == b'\n')
}

/// A refusal without a detail.
fn refused(line: u32, reason: u8) -> Result<Setup, ScenarioFault>
    ensures { IsReadAs result (refused line reason) }
{
    Err(ScenarioFault::Refused {
        line,
        reason,
        detail: 0,
    })
}

/// The answer of the lines of a text.
fn answer(lines: Lines) -> Result<Setup, ScenarioFault>
    requires few { lines.count < 1048578 }
    requires spelled { (bytes : List ℕ) × (read_bytes bytes ≡ answer (lines_shown lines)) }
    ensures { IsReadAs result (answer (lines_shown lines)) }
{
    let Lines {
        count,
        draft,
        refusal,
    } = lines;
    if let Some(x) = refusal {
        return Err(ScenarioFault::Refused {
            line: x.line,
            reason: x.reason,
            detail: x.detail,
        });
    }
    let at = draft.place();
    if at == 0 {
        return refused(count + 1, 1);
    }
    if at == 9 {
        Ok(draft.into_setup())
    } else {
        refused(count + 1, 18)
    }
}

/// The first line of a text without its newline, and the bytes behind that.
pub(crate) fn first_line(text: &[u8]) -> Option<(&[u8], &[u8])>
    ensures found { IfSome result (λ r. IsCut text.now r.0.now r.1.now) }
    ensures shorter { IfSome result (λ r. length r.1.now < length text.now) }
    ensures none { IfNone result (list_any is_newline text.now ≡ false) }
{
    match place_of_newline(text) {
        Some(n) => {
            let (line, rest) = text.split_at(n);
            let (_, behind) = rest.split_at(1);
            Some((line, behind))
        }
        None => None,
    }
}

impl Fed {
    /// No byte.
    pub fn none(alloc: Global) -> Result<Self, Memory>
        ensures { IfOk result (λ f. HasFed f.count f.text []) }
    {
        let text = Text::none(alloc)?;
        Ok(Fed { count: 0, text })
    }

    /// One more byte.
    fn push(&mut self, b: u8) -> Result<(), Memory>
        ensures { (bytes : List ℕ) → HasFed self.old.count self.old.text bytes → OnOk result (HasFed self.new.count self.new.text (bytes ++ b ∷ [])) }
    {
        if self.count > LIMIT {
            return Ok(());
        }
        self.count += 1;
        if self.count > LIMIT {
            return Ok(());
        }
        self.text.push(b)
    }

    /// More bytes, one after another.
    fn push_all(&mut self, more: &[u8]) -> Result<(), Memory>
        ensures { (bytes : List ℕ) → HasFed self.old.count self.old.text bytes → OnOk result (HasFed self.new.count self.new.text (bytes ++ more.now)) }
    {
        for b in more {
            self.push(*b)?;
        }
        Ok(())
    }

    /// A line and its newline, behind the bytes of the line that hasn't ended.
    fn push_line(&mut self, line: &[u8]) -> Result<(), Memory>
        requires { list_any is_newline line.now ≡ false }
        ensures { (bytes : List ℕ) → HasFed self.old.count self.old.text bytes → OnOk result (HasFed self.new.count self.new.text (bytes ++ (line.now ++ 10 ∷ []))) }
    {
        let left = LIMIT.saturating_sub(self.count) as usize;
        if line.len() >= left {
            self.count = self.count.max(LIMIT + 1);
            return Ok(());
        }
        self.count += line.len() as u32 + 1;
        self.text.push_line(line)
    }

    /// The next piece.
    pub fn feed(&mut self, piece: &[u8]) -> Result<(), Memory>
        ensures { (bytes : List ℕ) → HasFed self.old.count self.old.text bytes → OnOk result (HasFed self.new.count self.new.text (bytes ++ piece.now)) }
    {
        let mut rest = piece;
        while let Some((line, behind)) = first_line(rest) {
            self.push_line(line)?;
            rest = behind;
        }
        self.push_all(rest)?;
        Ok(())
    }

    /// The setup, or the first refusal.
    pub fn finish(self) -> Result<Setup, ScenarioFault>
        requires { (bytes : List ℕ) × HasFed self.count self.text bytes }
        ensures { (bytes : List ℕ) → HasFed self.count self.text bytes → IsReadAs result (read_bytes bytes) }
    {
        let Fed {
            count,
            mut text,
            ..
        } = self;
        if count > LIMIT {
            return refused(0, 5);
        }
        if text.finish().is_err() {
            return Err(ScenarioFault::Memory);
        }
        answer(text.lines)
    }
}
