//! Every operation and test of words with homes, and its items: they come to what it does.
#![tactic(auto)]

pub mod laws;
