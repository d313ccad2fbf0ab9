//! The expander: from the data of a text to the core of a unit, or to its first refusal. What these are is
//! defined in crate `expansion`.
#![tactic(auto)]

mod driver;
mod driver_first;
mod driver_state;
mod fault;
mod quoted;
mod spans;
mod unit;
mod unit_all;
mod unit_top;

pub use crate::fault::SyntaxFault;
pub use crate::spans::Spans;
pub use crate::unit::{expand, expand_spans};
pub use t_rows::SyntaxKind;
