//! The builtins: what each makes of its operands and the store, one line each in `specs/Table.antt`, how many operands each
//! takes, and what those that only compute give at constants. Every form of a program runs its builtins by this one table.
#![tactic(auto)]

mod atoms;
mod counts;
mod folding;

pub use crate::atoms::Atom;
pub use crate::counts::arity;
pub use crate::folding::fold;
