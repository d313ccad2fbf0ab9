//! Live frames as words of the stack. `specs/Frames.antt` has the relation between a state of code with frames and stack, stamps,
//! escapes and variables, `specs/Laws.antt` what operations come to that look at frames or push and pop them.
#![tactic(auto)]

pub mod laws;
