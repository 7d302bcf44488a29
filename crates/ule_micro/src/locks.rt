/// The number of locks.
pub const LOCKS: u8 = 25;

/// The number of thread numbers.
pub const THREADS: u16 = 256;

/// The lock of limbo, which the word of a number names that no thread has.
pub const LIMBO: u8 = 24;
