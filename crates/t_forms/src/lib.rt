//! Forms as data: the data of a text with what the rows of the table of forms add (`specs/Data.antt`), kept as cells that are
//! shared (`specs/Held.antt`), and what a name means (`specs/Names.antt`): its lexical binding, else the unit's definition, else the
//! builtin thing.
#![tactic(auto)]

mod arena;
mod builtins;
mod item_count;
mod loading;
mod locals;
mod making;
mod reading;
mod scope;

pub use crate::arena::{Cell, Form, Forms, New, Text};
pub use crate::builtins::builtin_of;
pub use crate::item_count::ItemCount;
pub use crate::loading::load;
pub use crate::scope::{Defined, Local, LocalName, Meant, Scope};
