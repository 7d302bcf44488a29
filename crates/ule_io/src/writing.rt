// Writing a whole piece.
ghost use Rattle.ule_io.specs.Sink.{WroteUnflushed, WroteWhole};

use crate::{Failed, Sink};
use thiserror::Error;

/// Why a piece was not written whole.
#[derive(Clone, Copy, Debug, PartialEq, Eq, Error)]
pub enum WriteFault {
    /// A write failed, or a flush that a caller makes behind it, as the sink counts.
    #[error("a write failed")]
    Failed,
    /// A write took 0 bytes of a nonempty piece, as the sink counts.
    #[error("a write took no bytes")]
    TookNothing,
}

/// Writes `piece` whole. After a fault a front of it was taken, which may be empty. Nothing is
/// flushed: the caller does so behind its last piece.
#[tactic(auto, using(crate::proofs::Written::writes))]
pub fn write_all<K: Sink>(out: &mut K, piece: &[u8]) -> Result<(), WriteFault>
    ensures wrote { WroteWhole (K.state out.old) (K.state out.new) piece.now result }
    ensures unflushed { WroteUnflushed (K.state out.old) (K.state out.new) piece.now result }
{
    let mut rest = piece;
    while !rest.is_empty() {
        match out.write(rest) {
            Err(Failed) => return Err(WriteFault::Failed),
            Ok(0) => return Err(WriteFault::TookNothing),
            Ok(n) => rest = rest.split_at(n).1,
        }
    }
    Ok(())
}
