//! Builtins as values: their entries test the count of operands, run the code of the builtin's row, and give the value to the youngest frame's way back.
//! `specs/Laws.antt` has what they come to; the code is in `frame_dispatch`.
#![tactic(auto)]

pub mod laws;
