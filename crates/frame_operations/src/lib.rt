//! Calls of operations, which look for a method of their first operand, one method after another. `specs/Calls.antt` has what holds meanwhile,
//! `specs/Laws.antt` what the code comes to; the code is in `frame_dispatch`.
#![tactic(auto)]

pub mod laws;
