// The data of a text as cells.
ghost use Rattle.std.specs.Prelude.{◌≡◌, ◌+◌, List, ℕ, Some, length, slice_get, IfOk, OnOk};
ghost use Rattle.t_base.specs.declared.basics.Span.{Span};
ghost use Rattle.t_reader.specs.Grammar.{Tree, Value};
ghost use Rattle.t_reader.specs.Unit.{Holds, IsValue, node as read};
ghost use Rattle.t_reader.specs.declared.unit.Datum.{Datum as NodeDatum};
ghost use Rattle.t_reader.specs.declared.unit.Datum.TheVariants as given_as;
ghost use Rattle.t_objects.specs.Words.{word_named};
ghost use Rattle.t_forms.specs.Data.{Datum as SpecDatum, given, atom, cons, datum_of};
ghost use Rattle.t_forms.specs.Held.{Held, IsSymbol, Extends};

use crate::arena::{Form, Forms, Text};
use std::alloc::Global;
use t_base::{Memory, Name, Names};
use t_objects::word_of;
use t_reader::{Datum, Node};

/// A symbol, which is a reserved word or a name.
fn symbol(names: &Names, name: Name) -> Form
    ensures { (text : List ℕ) → slice_get names.now name.0 ≡ Some text → IsSymbol names.now result text (word_named text) }
{
    if name.0 < names.count() {
        match word_of(names.text(name)) {
            Some(word) => Form::Word(word),
            None => Form::Sym(name),
        }
    } else {
        Form::Sym(name)
    }
}

/// Puts the cell of a node last and gives its place.
fn load_node(forms: &mut Forms, names: &Names, node: &Node) -> Result<u32, Memory>
    ensures count { OnOk result (length forms.new ≡ length forms.old + 1) }
    ensures place { IfOk result (λ key. key ≡ length forms.old) }
    ensures grown { Extends forms.old forms.new }
    ensures atom { (s : Span) (d : NodeDatum) (v : Value) → node.now ≡ read s d → IsValue names.now d v → IfOk result (λ key. Held names.now forms.new key (atom s (given v))) }
    ensures pair { (s : Span) (i j : ℕ) (h t : SpecDatum) → node.now ≡ read s (given_as.Pair i j) → Held names.now forms.old i h → Held names.now forms.old j t → IfOk result (λ key. Held names.now forms.new key (cons s h t)) }
{
    match &node.datum {
        Datum::Fix(value) => forms.atom(node.span, Form::Fix(*value)),
        Datum::Char(code) => forms.atom(node.span, Form::Char(*code)),
        Datum::Nil => forms.atom(node.span, Form::Nil),
        Datum::True => forms.atom(node.span, Form::True),
        Datum::Str(bytes) => {
            let copy = Text::copy(forms.alloc(), bytes)?;
            forms.atom(node.span, Form::Str(copy))
        }
        Datum::Sym(name) => forms.atom(node.span, symbol(names, *name)),
        Datum::Pair { head, tail } => forms.cons(node.span, *head, *tail),
    }
}

/// The data of a text as cells, one for each node, at the same places. The only error is the want of memory.
pub fn load(alloc: Global, nodes: &[Node], names: &Names) -> Result<Forms, Memory>
    ensures { (k : ℕ) (t : Tree) → Holds names.now nodes.now k t → IfOk result (λ forms. Held names.now forms k (datum_of t)) }
{
    let mut forms = Forms::new(alloc);
    'nodes: for node in nodes {
        load_node(&mut forms, names, node)?;
    }
    Ok(forms)
}
