//! The row of the table that a form has, and what a defining form defines.
#![tactic(auto)]

mod calls;
mod definitions;
mod object;
mod set;
mod table;

pub use crate::definitions::{Definition, definition_of};
pub use crate::table::{row, row_or_next};
