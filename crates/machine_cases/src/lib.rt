//! Cases for the machines: a small program as a line of text, and the state that it leaves as one.
#![tactic(auto)]

mod case;
mod state;

pub use case::{Case, case_of};
pub use state::{answer_text, state_text};
