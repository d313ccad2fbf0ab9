// What a row of the table of forms gives.

use crate::refusal::Refusal;
use t_base::{Keys, Prim, Var};
use t_forms::LocalName;

/// The node that a form stands for. A place of a form is among the cells.
#[derive(Drop)]
pub enum Shape {
    /// The constant that the datum at a place is.
    Constant(u32),
    Local(Var),
    Global(u32),
    BuiltinValue(Prim),
    OpValue(u32),
    Lambda,
    If,
    Block,
    Let,
    Labels,
    SetLocal(Var),
    SetGlobal(u32),
    Catch,
    /// An object with methods for these operations.
    Object(Keys),
    Call,
    Primitive(Prim),
    /// None: the form is refused.
    Nothing,
}

/// The names that a node binds around a part: these, or the names of the part before, of which the first part has none.
#[derive(Drop)]
pub enum Binds {
    Names(Vec<LocalName>),
    AsBefore,
}

/// A part of a node: a form by its place, and the names that the node binds around it.
#[derive(Drop)]
pub struct Part {
    pub binds: Binds,
    pub form: u32,
}

/// What a form stands for: what the form at a place stands for, or a node with what is refused at the form itself, and the node's
/// parts in the order of the node.
#[derive(Drop)]
pub enum Row {
    StandsFor(u32),
    Node {
        shape: Shape,
        refusals: Vec<Refusal>,
        parts: Vec<Part>,
    },
}
