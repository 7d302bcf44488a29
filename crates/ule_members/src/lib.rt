//! Laws of lists of threads: look-ups, what one thread's change does to them, and what a step touches and leaves.
#![tactic(auto)]
