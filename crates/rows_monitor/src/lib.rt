//! Tests of the monitor: worked runs, every face, every service, every operand that is not of its kind, and a sink that fails.
//! What is expected comes from the tables of words and services, never from these crates.
#![tactic(auto)]

#[cfg(test)]
mod runs;
#[cfg(test)]
mod services;
