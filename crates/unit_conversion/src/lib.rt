//! Conversion of a whole unit: its first procedures, its forms, and the program of both.
#![tactic(auto)]

mod first_lams;
mod program;
mod sites;

pub use crate::program::convert;
