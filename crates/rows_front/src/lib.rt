//! Tests of the front end: worked rows, hostile texts, and each public call once on its happy path.
//! Expected values come from the language's description, never from the program.
//! The crate holds nothing but tests.
#![tactic(auto)]

#[cfg(test)]
mod expanding;
#[cfg(test)]
mod outside;
#[cfg(test)]
mod reading;
