//! Runs of the items of a program of words with homes: when a state of the machine stands for one of that program, and how runs of
//! items through several places are put together.
#![tactic(auto)]

pub mod laws;
