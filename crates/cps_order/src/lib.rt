//! Whether the parts of a program stand apart: each term stands behind those that it names, each term and each procedure is named exactly
//! once, and no variable is bound twice (`specs/Order.antt`); and whether it assigns the variables that it should.
#![tactic(auto)]

mod assigned;
mod binders;
mod lambdas;
mod naming;
mod standing;

pub use crate::assigned::check_assigned;
pub use crate::standing::check_apart;
