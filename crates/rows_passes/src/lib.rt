//! Tests of the parts that passes are built of, and of passes on small programs. What is expected comes from what the parts are for,
//! never from their own answers.
#![tactic(auto)]

#[cfg(test)]
mod chains;
#[cfg(test)]
mod codes;
#[cfg(test)]
mod homes;
#[cfg(test)]
mod moves;
