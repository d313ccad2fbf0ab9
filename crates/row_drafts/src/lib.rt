//! The code of builtins, written line by line: each call writes the tree of its row in `select_rows`, in front of what is written
//! behind it. The operands are words of values; variables from `t` on are free for what is made on the way.
#![tactic(auto)]

pub mod data;
pub mod kinds;
pub mod numbers;
pub mod puts;
