//! The node of an OR, without the cells of the LET that the OR stands for.
ghost use Rattle.std.specs.Prelude.{◌≡◌, ◌∷◌, [], List, ℕ, is_some, IfOk, IfSome, OnOk};
ghost use Rattle.t_base.specs.declared.basics.Var.{Var};
ghost use Rattle.t_forms.specs.Data.{Datum, items_of};
ghost use Rattle.t_forms.specs.Held.{Held};
ghost use Rattle.t_forms.specs.Names.{Scope};
ghost use Rattle.choice_rows.specs.Ors.{IsOr, is_or, or_test, or_let};
ghost use Rattle.t_rows.specs.Given.{IsRow, IsRowOfNext};
ghost use Rattle.t_rows.specs.Lists.{Grows, AreItems};

use t_base::{Memory, Span};
use t_forms::{Form, Forms, LocalName, New};
use t_objects::Word;
use t_rows::lists::{items_of, span_of, split, with_body, word_of};
use t_rows::making::made;
use t_rows::templates::{Piece, written};
use t_rows::{Binds, Part, Row, Shape};

/// The first operand of the form at a place, and the items behind it, if it is an OR of two operands or more.
fn or_operands(forms: &Forms, key: u32) -> Option<(u32, u32)>
    ensures is { (names : List (List ℕ)) (d : Datum) → Held names forms.now key d → is_some result ≡ is_or (items_of d) }
    ensures are { (names : List (List ℕ)) (d : Datum) → Held names forms.now key d → IfSome result (IsOr names forms.now d) }
{
    match items_of(forms, key) {
        None => None,
        Some(items) => match split(forms, items) {
            None => None,
            Some((operator, operands)) => match word_of(forms, operator) {
                Some(Word::Or) => with_body(forms, operands),
                _ => None,
            },
        },
    }
}

/// `(if u u (or b ..))`
fn or_test(forms: &mut Forms, span: Span, others: u32) -> Result<u32, Memory>
    ensures grown { OnOk result (Grows forms.old forms.new) }
    ensures made { (names : List (List ℕ)) (ds : List Datum) → AreItems names forms.old others ds → IfOk result (λ key. Held names forms.new key (or_test span ds)) }
{
    let u = made(forms, span, Form::Variable(New::Answer))?;
    let form = written(
        forms,
        span,
        &[u],
        &[others],
        &[
            Piece::Word(Word::If),
            Piece::Given(0),
            Piece::Given(0),
            Piece::Open,
            Piece::Word(Word::Or),
            Piece::Rest(0),
            Piece::Close,
        ],
    )?;
    Ok(form)
}

/// The node of `(let ((u a)) (if u u (or b ..)))`
fn or_let(forms: &mut Forms, span: Span, first: u32, others: u32) -> Result<Row, Memory>
    ensures grown { OnOk result (Grows forms.old forms.new) }
    ensures row { (names : List (List ℕ)) (vars : List Var) (a : Datum) (ds : List Datum) → Held names forms.old first a → AreItems names forms.old others ds → IfOk result (λ r. IsRow names forms.new vars r (or_let span a ds)) }
{
    let form = or_test(forms, span, others)?;
    let mut names = Vec::with_capacity(forms.alloc(), 1)?;
    names.push(LocalName::Made(New::Answer))?;
    let mut parts = Vec::with_capacity(forms.alloc(), 2)?;
    parts.push(Part {
        binds: Binds::Names(Vec::new(forms.alloc())),
        form: first,
    })?;
    parts.push(Part {
        binds: Binds::Names(names),
        form,
    })?;
    Ok(Row::Node {
        shape: Shape::Let,
        refusals: Vec::new(forms.alloc()),
        parts,
    })
}

/// The node of the form at a place, if it is an OR of two operands or more: that of the LET for which it stands. None comes exactly where
/// it is another form. Cells are only added. The only error is the want of memory, after which nothing is said of the cells.
pub fn or_node(forms: &mut Forms, key: u32) -> Result<Option<Row>, Memory>
    ensures grown { OnOk result (Grows forms.old forms.new) }
    ensures is { (names : List (List ℕ)) (d : Datum) → Held names forms.old key d → IfOk result (λ found. is_some found ≡ is_or (items_of d)) }
    ensures next { (names : List (List ℕ)) (vars : List Var) (around : Scope) (d : Datum) → Held names forms.old key d → IfOk result (λ found. IfSome found (IsRowOfNext names forms.new vars around d)) }
{
    match or_operands(forms, key) {
        None => Ok(None),
        Some((first, others)) => {
            let span = span_of(forms, key);
            let row = or_let(forms, span, first, others)?;
            Ok(Some(row))
        }
    }
}
