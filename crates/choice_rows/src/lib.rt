//! The rows of the forms that choose: AND, OR, COND and CASE.
#![tactic(auto)]

mod case;
mod cond;
mod or_forms;

pub use crate::case::case_row;
pub use crate::cond::{and_row, cond_row, or_row};
pub use crate::or_forms::or_node;
