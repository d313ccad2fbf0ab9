//! What a block does at once with the words of its variables, as moves one after another between their homes.
#![tactic(auto)]

pub mod laws;
