//! Builtins in code with frames: the words of a builtin's row lead from a state that is held to the one behind the row.
//! `specs/Operands.antt` has the operands of arguments, `specs/Laws.antt` what a builtin's code comes to.
#![tactic(auto)]

pub mod laws;
