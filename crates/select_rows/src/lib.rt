//! The code of builtins on tagged words, as trees of lines: a check for each kind of operand, results, and the rows that are made of
//! them. `specs/Macros.antt` has the checks, `specs/Codes.antt` the rows, `specs/Kept.antt` what a row's code comes to and keeps.
#![tactic(auto)]

pub mod laws;
