//! The code of builtins that tell kinds, where a test has the other answer or an object has headers, and of make-vector. Both answers of a test meet in one block.
#![tactic(auto)]

pub mod truths;
pub mod vectors;
