//! Services that read storage, and their items: the value that ends a run, and strings that are put.
#![tactic(auto)]

pub mod laws;
