/// Why a line is refused: the number of the reason, and what it adds.
#[derive(Clone, Copy)]
pub struct Reason {
    pub reason: u8,
    pub detail: u32,
}

/// The first line that is refused, counted from 1, with its reason. Line 0 is the whole text.
#[derive(Clone, Copy)]
pub struct Refusal {
    pub line: u32,
    pub reason: u8,
    pub detail: u32,
}
