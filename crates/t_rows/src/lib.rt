//! The table of forms (`specs/Rows.antt`, a row for each form), and what its rows are made of: names and lists as cells, forms that rows
//! make, and the rows of the reserved words whose nodes are the core's own. What the code's row is to the table's is `specs/Given.antt`.
#![tactic(auto)]

pub mod lists;
pub mod making;
pub mod names;
pub mod nodes;
mod refusal;
mod rows;
pub mod templates;
pub mod words;

pub use crate::refusal::{Refusal, SyntaxKind};
pub use crate::rows::{Binds, Part, Row, Shape};
