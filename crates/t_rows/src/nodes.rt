//! What rows give.
ghost use Rattle.std.specs.Prelude.{◌∷◌, [], List, ℕ, map, IfOk, OnOk};
ghost use Rattle.t_base.specs.declared.basics.Var.{Var};
ghost use Rattle.t_forms.specs.declared.arena.Cell.{Cell};
ghost use Rattle.t_forms.specs.Data.{Atom, Datum, Name, atom};
ghost use Rattle.t_forms.specs.Held.{Held, IsAtom, AreNames};
ghost use Rattle.t_rows.specs.Given.{IsRow, IsShape, AreParts};
ghost use Rattle.t_rows.specs.Lists.{Grows, AreHeld, AreLists};
ghost use Rattle.t_rows.specs.Rows.{Shape as SpecShape, stands_for, node, plain, inside, bad, no_row};
ghost use Rattle.t_rows.specs.Templates.{written_list};

use crate::making::made;
use crate::refusal::{Refusal, SyntaxKind};
use crate::rows::{Binds, Part, Row, Shape};
use crate::templates::{Piece, written};
use t_base::{Memory, Span};
use t_forms::{Form, Forms, LocalName};

/// The form stands for the list that a template is.
pub fn rewritten(
    forms: &mut Forms,
    span: Span,
    given: &[u32],
    rests: &[u32],
    template: &[Piece],
) -> Result<Row, Memory>
    ensures grown { OnOk result (Grows forms.old forms.new) }
    ensures row { (names : List (List ℕ)) (vars : List Var) (ds : List Datum) (dss : List (List Datum)) → AreHeld names forms.old given.now ds → AreLists names forms.old rests.now dss → IfOk result (λ r. IsRow names forms.new vars r (stands_for (written_list span ds dss template.now))) }
{
    let key = written(forms, span, given, rests, template)?;
    Ok(Row::StandsFor(key))
}

/// One rule is broken, and nothing more is looked for inside.
pub fn bad(forms: &Forms, kind: SyntaxKind, span: Span) -> Result<Row, Memory>
    ensures { (names : List (List ℕ)) (cells : List Cell) (vars : List Var) → IfOk result (λ r. IsRow names cells vars r (bad kind span)) }
{
    let mut refusals = Vec::new(forms.alloc());
    refusals.push(Refusal { kind, span })?;
    Ok(Row::Node {
        shape: Shape::Nothing,
        refusals,
        parts: Vec::new(forms.alloc()),
    })
}

/// The form is no row.
pub fn no_row(forms: &mut Forms, span: Span) -> Result<Row, Memory>
    ensures grown { OnOk result (Grows forms.old forms.new) }
    ensures row { (names : List (List ℕ)) (vars : List Var) → IfOk result (λ r. IsRow names forms.new vars r (no_row span)) }
{
    let row = bad(forms, SyntaxKind::BadForm, span)?;
    Ok(row)
}

/// Parts inside no names of the node.
pub fn plain_parts(forms: &Forms, keys: &[u32]) -> Result<Vec<Part>, Memory>
    ensures { (names : List (List ℕ)) (ds : List Datum) → AreHeld names forms.now keys.now ds → IfOk result (λ parts. AreParts names forms.now [] parts.items (map plain ds)) }
{
    let mut parts = Vec::with_capacity(forms.alloc(), keys.len())?;
    'parts: for form in keys {
        parts.push(Part {
            binds: Binds::Names(Vec::new(forms.alloc())),
            form: *form,
        })?;
    }
    Ok(parts)
}

/// A node that binds no names.
pub fn plain_node(forms: &mut Forms, shape: Shape, keys: &[u32]) -> Result<Row, Memory>
    ensures grown { OnOk result (Grows forms.old forms.new) }
    ensures row { (names : List (List ℕ)) (vars : List Var) (s : SpecShape) (ds : List Datum) → IsShape names forms.old vars shape s → AreHeld names forms.old keys.now ds → IfOk result (λ r. IsRow names forms.new vars r (node s [] (map plain ds))) }
{
    let parts = plain_parts(forms, keys)?;
    Ok(Row::Node {
        shape,
        refusals: Vec::new(forms.alloc()),
        parts,
    })
}

/// One part, inside names.
pub fn one_part(forms: &Forms, binds: Vec<LocalName>, form: u32) -> Result<Vec<Part>, Memory>
    ensures { (names : List (List ℕ)) (ns : List Name) (d : Datum) → AreNames names binds.items ns → Held names forms.now form d → IfOk result (λ parts. AreParts names forms.now [] parts.items (inside ns d ∷ [])) }
{
    let mut parts = Vec::with_capacity(forms.alloc(), 1)?;
    parts.push(Part {
        binds: Binds::Names(binds),
        form,
    })?;
    Ok(parts)
}

/// The form stands for a part of it.
pub fn stands_for(forms: &mut Forms, key: u32) -> Result<Row, Memory>
    ensures grown { OnOk result (Grows forms.old forms.new) }
    ensures row { (names : List (List ℕ)) (vars : List Var) (d : Datum) → Held names forms.old key d → IfOk result (λ r. IsRow names forms.new vars r (stands_for d)) }
{
    Ok(Row::StandsFor(key))
}

/// The form stands for an atom.
pub fn stands_for_atom(forms: &mut Forms, span: Span, form: Form) -> Result<Row, Memory>
    ensures grown { OnOk result (Grows forms.old forms.new) }
    ensures row { (names : List (List ℕ)) (vars : List Var) (a : Atom) → IsAtom names form a → IfOk result (λ r. IsRow names forms.new vars r (stands_for (atom span a))) }
{
    let key = made(forms, span, form)?;
    Ok(Row::StandsFor(key))
}
