//! What a unit means, as definitions, and the laws of this meaning. It is the measure for everything that is compiled, and
//! knows nothing of instructions or bytes.
#![tactic(auto)]

pub mod laws;
