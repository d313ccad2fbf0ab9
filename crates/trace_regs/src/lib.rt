//! Homes of variables: where each variable of a program of words is kept on the machine.
#![tactic(auto)]

pub mod laws;
mod static_homes;

pub use crate::static_homes::assign;
