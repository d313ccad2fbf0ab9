//! How a run ends by a value: the face of the value's word is what is shown of it. `specs/Laws.antt` has the code and what it comes to.
#![tactic(auto)]

pub mod laws;
