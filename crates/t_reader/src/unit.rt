//! The data of a text.

use t_base::{Bytes, Name, Names, Span};

/// What a node stands for.
#[derive(Drop)]
pub enum Datum {
    /// A fixnum, from -536870912 to 536870911.
    Fix(i32),
    /// A character, by its number, from 9 to 126.
    Char(u8),
    /// `nil`, `#f` or the empty list, and the end of each list.
    Nil,
    /// `#t`.
    True,
    /// The bytes of a string, without its quote marks and escapes.
    Str(Bytes),
    /// A symbol, its letters folded to lower case.
    Sym(Name),
    /// Two places in the nodes of the unit, both lower than the pair's own.
    Pair { head: u32, tail: u32 },
}

/// A datum, and where it stands in the text.
#[derive(Drop)]
pub struct Node {
    pub span: Span,
    pub datum: Datum,
}

/// The data of a text.
///
/// `forms` has the places of the data at top level. Children stand before their parent, and each node is named
/// once, as a form or by one pair. `names` begins with `setter`, `contents` and `set-contents`; the other symbols
/// of the text follow, each where it comes first.
#[derive(Drop)]
pub struct Unit {
    pub names: Names,
    pub nodes: Vec<Node>,
    pub forms: Vec<u32>,
}
