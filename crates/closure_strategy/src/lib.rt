//! Where the closure of each procedure of a program in continuation-passing style is kept (`specs/Plans.antt`).
#![tactic(auto)]

mod choice;
pub mod laws;
mod plans;

pub use crate::choice::choose;
pub use crate::plans::{Plan, Strategy};
