//! What each line of a whole program of words with homes has that its items count on.
#![tactic(auto)]

pub mod laws;
