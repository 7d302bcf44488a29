// The scenario at the front of a text that goes on behind it.
ghost use Rattle.std.specs.Prelude.{◌≡◌, ◌≤◌, length};
ghost use Rattle.ule_scenario.specs.Front.{front_length, is_end_word, is_end_line, IsFrontReadAs};

use crate::fed::first_line;
use crate::line::LineSoFar;
use crate::name::Name;
use crate::reader::read;
use std::alloc::Global;
use ule_types::{ScenarioFault, Setup};

/// Whether a word is `end`.
fn is_end_word(name: Name) -> bool
    ensures { result ≡ is_end_word name }
{
    match name {
        Name::End => true,
        _ => false,
    }
}

/// Whether the first word of a line is `end`. What is kept of it takes the place of what was kept.
fn is_end_line(kept: &mut LineSoFar, line: &[u8]) -> bool
    ensures { result ≡ is_end_line line.now }
{
    kept.clear();
    kept.push_all(line);
    kept.pieces.end_word();
    is_end_word(kept.pieces.words.word(0).name)
}

/// How many bytes of a text are the scenario's: those up to and with the newline of its first line
/// whose first word is `end`, or all where there is none.
fn front_length(text: &[u8]) -> usize
    ensures value { result ≡ front_length text.now }
    ensures within { result ≤ length text.now }
{
    let mut kept = LineSoFar::none();
    let mut rest = text;
    while let Some((line, behind)) = first_line(rest) {
        if is_end_line(&mut kept, line) {
            return text.len() - behind.len();
        }
        rest = behind;
    }
    text.len()
}

/// What the scenario at the front of a text spells, and how many bytes it has: it ends with the
/// newline of its first line whose first word is `end`, and what follows isn't read. Where there is
/// no such line it is the whole text. The lines of a refusal are counted from 1.
pub fn read_front(alloc: Global, bytes: &[u8]) -> Result<(Setup, usize), ScenarioFault>
    ensures { IsFrontReadAs result bytes.now }
{
    let count = front_length(bytes);
    match read(alloc, bytes.split_at(count).0) {
        Ok(setup) => Ok((setup, count)),
        Err(fault) => Err(fault),
    }
}
