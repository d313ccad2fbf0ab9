//! What every form of a program has: names in first-seen order, variables, constants, builtins, faults, how values are shown,
//! the parts that no pass changes, small lists that contracts see as lists, and lines and columns of a text.
#![tactic(auto)]

mod basics;
mod builtins;
mod faults;
mod interner;
mod lines;
mod lists;
mod shared_parts;

pub use crate::basics::{Memory, Name, Span, Var};
pub use crate::builtins::Builtin as Prim;
pub use crate::faults::{Face, Fault};
pub use crate::interner::Names;
pub use crate::lines::place;
pub use crate::lists::{Bytes, Keys, Vars};
pub use crate::shared_parts::{Const, Global1, GlobalKind, OpInfo, Shared};
