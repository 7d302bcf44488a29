use thiserror::Error;

/// Why a trace was not read.
#[derive(Clone, Copy, Debug, PartialEq, Eq, Error)]
pub enum TraceFault {
    /// The bytes are no trace: the first line, counted from 1, at which the lines so far begin
    /// none.
    #[error("line {line} is no line of a trace")]
    Bad { line: u32 },
    /// There was no memory for the entries and lines.
    #[error("out of memory")]
    Memory,
}
