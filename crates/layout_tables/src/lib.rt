//! What is known while a program is laid out: tables of what its terms and procedures need, the variables that are held at a place, the
//! Joins and CATCHes around it, and the blocks that are asked for so far. What a request is for in the relation, and what holds however
//! many more requests come, is in `specs/Sketches.antt`.
#![tactic(auto)]

mod lines;
mod needs;
mod requests;
mod scopes;
mod sites;
mod tables;

pub use crate::lines::{Line, Step};
pub use crate::requests::{Request, Work, copy_request};
pub use crate::scopes::{Scope, are_distinct, are_same, find_all, names};
pub use crate::sites::{Join, Opened, Site, Way};
pub use crate::tables::{
    Tables, are_small, is_celled, lam_needs, needs_behind, rank_of, tables_of, term_needs,
};
