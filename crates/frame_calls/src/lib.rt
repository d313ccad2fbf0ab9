//! Calls: operands are passed, a code is entered with a count of them, and a closure that isn't known is entered by way of its word.
//! `specs/Codes.antt` has the code, `specs/Calls.antt` what holds where a call is made, `specs/Laws.antt` what the code comes to.
#![tactic(auto)]

pub mod laws;
