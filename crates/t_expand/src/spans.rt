//! Where the nodes of a form stand in the text.
ghost use Rattle.std.specs.Prelude.{◌≡◌};

use std::marker::Model;
use t_base::Span;

/// A list of spans, one for each node of a form, which contracts see as a list.
#[derive(Drop)]
pub struct Spans {
    items: Vec<Span>,
}

impl Model for Spans {
    ghost use Rattle.std.specs.Prelude.{List};
    ghost use Rattle.t_base.specs.declared.basics.Span.{Span};

    ghost Value = { List Span };

    ghost view = { λ l. l.items.items };
}

impl Spans {
    /// The list of these items. It takes no memory.
    pub fn from_vec(items: Vec<Span>) -> Spans
        ensures { result ≡ items.items }
    {
        Spans { items }
    }

    /// The items in order. It takes no memory.
    pub fn as_slice(&self) -> &[Span]
        ensures { result.now ≡ self.now }
    {
        self.items.as_slice()
    }

    /// Gives the items back. It takes no memory.
    pub fn into_vec(self) -> Vec<Span>
        ensures { result.items ≡ self }
    {
        self.items
    }
}
