//! Tests of the machine: spellings of instructions, boot, the stops of small programs, and what is seen of storage.
//! What is expected comes from the processor's manual and the address map, never from these crates.
#![tactic(auto)]

#[cfg(test)]
mod spellings;
#[cfg(test)]
mod steps;
