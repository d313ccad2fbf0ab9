//! The operands of arguments: variables, and the words of what a program names, which tables give.
#![tactic(auto)]

mod arguments;
mod places;

pub use crate::arguments::{operand, operands};
pub use crate::places::{Places, number_of, word_at};
