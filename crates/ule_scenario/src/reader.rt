// The reader: one byte after another, in pieces of any cut.
ghost use Rattle.std.specs.Prelude.{◌≡◌, ℕ, Err, List, [], ◌++◌, IfOk, OnOk, OnErr};
ghost use Rattle.ule_types.specs.declared.fault.ScenarioFault.TheVariants as fault;
ghost use Rattle.ule_scenario.specs.Scenario.{IsReadAs, read_bytes};
ghost use Rattle.ule_scenario.specs.ReaderKept.{HasRead, IsBroken};

use crate::fed::Fed;
use std::alloc::Global;
use std::marker::Model;
use ule_io::Memory;
use ule_types::{ScenarioFault, Setup};

/// A reader of a scenario that comes in pieces. It keeps no text: the setup so far or the first
/// refusal, how many lines and bytes there are, and of the line that hasn't ended what counts of
/// its words, the last of them by its first 16 bytes.
#[derive(Drop)]
pub struct Reader {
    fed: Fed,
    // Whether memory ran out.
    broken: bool,
}

impl Model for Reader {
    ghost use Rattle.ule_scenario.specs.ReaderValue.{ReaderValue};

    ghost Value = { ReaderValue };

    ghost use Rattle.ule_scenario.specs.ReaderView.{reader_shown, HasSome};

    ghost view = { reader_shown };

    ghost invariant = { HasSome };
}

impl Reader {
    /// A reader that has read nothing. It takes its memory from `alloc` as it reads.
    pub fn start(alloc: Global) -> Result<Self, Memory>
        ensures { IfOk result (λ r. HasRead r []) }
    {
        let fed = Fed::none(alloc)?;
        Ok(Reader { fed, broken: false })
    }

    /// Reads the next piece. After `Memory` every later call of this and of `finish` answers it.
    pub fn feed(&mut self, piece: &[u8]) -> Result<(), Memory>
        ensures read { (bytes : List ℕ) → HasRead self.old bytes → OnOk result (HasRead self.new (bytes ++ piece.now)) }
        ensures memory { OnErr result (IsBroken self.new) }
        ensures broken { IsBroken self.old → (result ≡ Err (record {})) × IsBroken self.new }
    {
        if self.broken {
            return Err(Memory);
        }
        let Ok(()) = self.fed.feed(piece) else {
            self.broken = true;
            return Err(Memory);
        };
        Ok(())
    }

    /// What the pieces spell, put together in their order, however they were cut.
    pub fn finish(self) -> Result<Setup, ScenarioFault>
        ensures told { (bytes : List ℕ) → HasRead self bytes → IsReadAs result (read_bytes bytes) }
        ensures broken { IsBroken self → result ≡ Err fault.Memory }
    {
        let Reader { fed, broken } = self;
        if broken {
            return Err(ScenarioFault::Memory);
        }
        fed.finish()
    }
}

/// What the bytes spell: a setup, or the first line that is refused, counted from 1, with the
/// number of the reason and what the reason adds. `docs/SCENARIOS.md` has the reasons in words.
pub fn read(alloc: Global, bytes: &[u8]) -> Result<Setup, ScenarioFault>
    ensures { IsReadAs result (read_bytes bytes.now) }
{
    let Ok(mut reader) = Reader::start(alloc) else {
        return Err(ScenarioFault::Memory);
    };
    let Ok(()) = reader.feed(bytes) else {
        return Err(ScenarioFault::Memory);
    };
    reader.finish()
}
