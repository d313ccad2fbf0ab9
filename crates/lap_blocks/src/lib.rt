//! Where the items of each block stand.
#![tactic(auto)]

pub mod laws;
