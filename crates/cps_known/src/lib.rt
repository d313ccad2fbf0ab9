//! What is known of a program in continuation-passing style: the variables that are free in each term (`specs/LiveVariables.antt`), and
//! which procedures and variables count as escaping (`specs/KnownMarks.antt`).
#![tactic(auto)]

mod binders;
mod liveness;
mod marking;

pub use crate::liveness::Live;
pub use crate::marking::{Marks, escapes};
