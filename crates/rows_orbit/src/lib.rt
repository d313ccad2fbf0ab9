//! Tests of the program: worked calls over a folder and sinks in memory. What is expected is what the language and the table of
//! statuses say, never what the program gave.
#![tactic(auto)]

#[cfg(test)]
mod calls;
#[cfg(test)]
mod compiling;
#[cfg(test)]
mod images;
#[cfg(test)]
mod inspections;
#[cfg(test)]
mod limits;
#[cfg(test)]
mod listings;
#[cfg(test)]
mod long;
#[cfg(test)]
mod outside;
#[cfg(test)]
mod profile;
#[cfg(test)]
mod rows;
#[cfg(test)]
mod usage;
