// What can be wrong with the forms of a text.

use t_base::Span;

/// A rule that a form breaks. Of two that stand at one place the one with the lower number is the first.
#[derive(Clone, Copy, Debug, PartialEq, Eq)]
pub enum SyntaxKind {
    /// S1: a form that is no row of the table of forms, or a reserved word as expression.
    BadForm,
    /// S2: a name that the unit defined before.
    Twice,
    /// S3: a name twice in one list of names.
    ParamTwice,
    /// S4: a method for a name that is no operation.
    NotOperation,
    /// S5: an assignment to a call of a builtin that reads no place.
    NotSettable,
    /// S6: a defining form elsewhere than at top level.
    NotTopLevel,
    /// S7: an assignment to a name that stands for one thing.
    ConstantSet,
    /// S8: a name without a meaning.
    FreeName,
}

/// A rule that is broken, and the span of what breaks it.
#[derive(Clone, Copy, Debug, PartialEq, Eq)]
pub struct Refusal {
    pub kind: SyntaxKind,
    pub span: Span,
}
