//! What conversion needs to know of a whole unit before it begins: which variables are assigned, and where new ones begin.
#![tactic(auto)]

mod marks;
mod numbers;
mod setting;

pub use crate::marks::marks_of;
pub use crate::numbers::first_new;
pub use crate::setting::{Known, survey};
