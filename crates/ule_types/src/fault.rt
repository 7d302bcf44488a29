use thiserror::Error;

/// Why a scenario was not read.
#[derive(Clone, Copy, Debug, PartialEq, Eq, Error)]
pub enum ScenarioFault {
    /// The bytes spell no setup: the first line that offends, counted from 1, with the number of
    /// the reason and what the reason adds. Line, reason and detail are 0 while the grammar is
    /// not whole.
    #[error("line {line} is refused for reason {reason} ({detail})")]
    Refused { line: u32, reason: u8, detail: u32 },
    /// There was no memory for the setup.
    #[error("out of memory")]
    Memory,
}
