//! Tokens.

use crate::fault::ReadKind;
use t_base::Span;

/// A datum of one token. The bytes of a string or a symbol stand in the text.
#[derive(Clone, Copy)]
pub enum Atom {
    Fix(i32),
    Char(u8),
    Nil,
    True,
    Str,
    Sym,
}

/// What a token is.
#[derive(Clone, Copy)]
pub enum Word {
    Open,
    Close,
    Quote,
    Dot,
    Atom(Atom),
    /// A fault of the token itself. The span is the fault's.
    Bad(ReadKind),
    /// The end of the text.
    End,
}

/// A token, and where it stands in the text.
#[derive(Clone, Copy)]
pub struct Token {
    pub word: Word,
    pub span: Span,
}
