/// One item of a worker's program.
#[derive(Clone, Copy)]
pub enum Todo<E> {
    /// An event, which makes an entry in the history.
    Event(E),
    /// Time is raised by this many hz ticks, 1..=1000000.
    Advance(u32),
}
