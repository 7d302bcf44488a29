//! Words of a text, byte by byte, and the text of a line: what is kept of a word of which more bytes may come, and the
//! number that it spells.
#![tactic(auto)]

pub use digits::Digits;
pub use front::Front;
pub use line_text::LineText;
pub use word::WordSoFar;

pub mod digits;
pub mod front;
pub mod line_text;
pub mod word;
