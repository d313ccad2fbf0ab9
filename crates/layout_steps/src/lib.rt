//! The steps that lay out one term each, at the end of a block under way: closures and arguments, frames of continuations that wait,
//! what goes on behind a value, and each kind of term. What a step owes to the whole is in `specs/Steps.antt`.
#![tactic(auto)]

mod arguments;
mod catches;
mod cells;
mod frames;
mod giving;
mod objects;
mod terms;

pub use crate::arguments::closure;
pub use crate::catches::{lay_catch, lay_uncatch};
pub use crate::cells::{lay_cell, lay_cell_get, lay_cell_set};
pub use crate::giving::{are_few, go_to, go_to_join, is_fresh, jump};
pub use crate::objects::lay_object;
pub use crate::terms::{
    lay_call, lay_give, lay_global_get, lay_global_init, lay_global_set, lay_halt, lay_if,
    lay_join, lay_prim,
};
