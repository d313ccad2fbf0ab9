//! The rows of the forms that bind names: LET, LET*, LABELS, ITERATE, DO and LOCATIVE.
#![tactic(auto)]

mod bindings;
mod labels;
mod locative;
mod loops;

pub use crate::bindings::{iterate_row, let_row, let_star_row};
pub use crate::labels::labels_row;
pub use crate::locative::locative_row;
pub use crate::loops::do_row;
