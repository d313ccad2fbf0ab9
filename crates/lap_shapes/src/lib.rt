//! That the items of a program can be assembled, but for their length, and how long they are.
#![tactic(auto)]

pub mod laws;
