//! The code of any builtin, and the operands of arguments, written.
#![tactic(auto)]

mod rows;

pub use crate::rows::prim;
