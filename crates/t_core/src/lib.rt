//! The core of a unit: the nodes that its forms stand for, how large forms and units are, and what a whole unit is
//! (`specs/Whole.antt`), which the passes need.
#![tactic(auto)]

mod counts;
mod forms;
mod limiting;
mod quoted;

pub use crate::counts::{nodes, weight};
pub use crate::forms::{Core, Form, FormKind, Method, Methods, UnitCore};
pub use crate::limiting::{LimitFault, limits};
