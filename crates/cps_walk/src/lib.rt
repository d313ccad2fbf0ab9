//! The terms of a program in continuation-passing style that are reached, in order.
#![tactic(auto)]

mod marks;
mod parts;
mod walks;

pub use crate::marks::{is_marked, mark};
pub use crate::parts::{first_lams, global_lams, push_parts, push_roots};
pub use crate::walks::walk;
