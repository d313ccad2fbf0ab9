//! The forms at top level of a unit, what the names of the unit are defined as, and marks on names.
#![tactic(auto)]

mod entries;
mod tops;
mod unit_marks;

pub use crate::entries::{Entries, defined_name, entries_of};
pub use crate::tops::{Top, tops_of};
pub use crate::unit_marks::NameMarks;
