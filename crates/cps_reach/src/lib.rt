//! What a procedure reaches, which bounds its closure, is what the escape marks take it to reach. `specs/ReachLaws.antt` has what that means.
#![tactic(auto)]

pub mod laws;
