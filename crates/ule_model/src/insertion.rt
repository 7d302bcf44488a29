/// Why a thread is queued, which says where in its queue it goes.
#[derive(Clone, Copy)]
pub enum Insertion {
    /// It became ready, or gave way of its own accord.
    Ordinary,
    /// Its priority got better while it was queued, after `SRQ_BORROWING`.
    Borrowing,
    /// It was preempted, after `SRQ_PREEMPTED`.
    Preempted,
}
