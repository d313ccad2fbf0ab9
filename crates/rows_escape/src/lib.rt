//! Which LAMBDAs and variables escape in small units written by hand, computed from the rules.
#![tactic(auto)]

pub mod rows;
