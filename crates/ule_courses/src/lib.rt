//! Laws of courses and of what they meet in a world: where a program finds its next item, the hand
//! of its worker, what a step replies to it, and a history with one entry more.
#![tactic(auto)]
