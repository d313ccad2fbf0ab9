//! Rows of reserved words whose nodes are the core's own.
ghost use Rattle.std.specs.Prelude.{◌≡◌, ◌≢◌, ◌∷◌, [], List, ℕ, AllPairs, IfOk, OnOk};
ghost use Rattle.std.specs.List.{AllZip};
ghost use Rattle.t_base.specs.declared.basics.Var.{Var};
ghost use Rattle.t_forms.specs.Data.{Datum, listed, Binder as SpecBinder, names};
ghost use Rattle.t_forms.specs.Held.{Held};
ghost use Rattle.t_rows.specs.Bindings.{IsBinder};
ghost use Rattle.t_rows.specs.Given.{IsRow};
ghost use Rattle.t_rows.specs.Lists.{Grows, AreItems, is_new};
ghost use Rattle.t_rows.specs.Rows.{lambda_form, lambda, inside, node, twice, body, quote_row, lambda_row, if_row, block_row, catch_row};

use crate::lists::{Few, few_items, is_new, keys_of, name_of, split, with_body};
use crate::names::{Binder, names_of, params_of, twice};
use crate::nodes::{no_row, one_part, plain_node, rewritten};
use crate::rows::{Row, Shape};
use crate::templates::{Piece, written};
use t_base::{Memory, Names, Span};
use t_forms::Forms;
use t_objects::Word;

/// The items of a body, of which there is at least one, as one form.
pub fn body(forms: &mut Forms, span: Span, items: u32) -> Result<u32, Memory>
    ensures grown { OnOk result (Grows forms.old forms.new) }
    ensures made { (names : List (List ℕ)) (b : Datum) (bs : List Datum) → AreItems names forms.old items (b ∷ bs) → IfOk result (λ key. Held names forms.new key (body span (b ∷ bs))) }
{
    match split(forms, items) {
        None => Err(Memory),
        Some((first, behind)) => match split(forms, behind) {
            None => Ok(first),
            Some(_) => {
                let block = written(
                    forms,
                    span,
                    &[],
                    &[items],
                    &[Piece::Word(Word::Block), Piece::Rest(0)],
                )?;
                Ok(block)
            }
        },
    }
}

/// `(lambda (x ..) B ..)`, where what stands behind the word isn't looked at.
pub fn lambda_form(forms: &mut Forms, span: Span, params: u32, items: u32) -> Result<u32, Memory>
    ensures grown { OnOk result (Grows forms.old forms.new) }
    ensures made { (names : List (List ℕ)) (xs : List Datum) (bs : List Datum) → AreItems names forms.old params xs → AreItems names forms.old items bs → IfOk result (λ key. Held names forms.new key (lambda_form span (listed span xs) bs)) }
{
    let form = written(
        forms,
        span,
        &[],
        &[params, items],
        &[
            Piece::Word(Word::Lambda),
            Piece::Open,
            Piece::Rest(0),
            Piece::Close,
            Piece::Rest(1),
        ],
    )?;
    Ok(form)
}

/// `(quote d)`
pub fn quote_row(forms: &mut Forms, span: Span, items: u32) -> Result<Row, Memory>
    ensures grown { OnOk result (Grows forms.old forms.new) }
    ensures row { (names : List (List ℕ)) (vars : List Var) (ds : List Datum) → AreItems names forms.old items ds → IfOk result (λ r. IsRow names forms.new vars r (quote_row span ds)) }
{
    match few_items(forms, items) {
        Few::One(d) => {
            if is_new(forms, d) {
                no_row(forms, span)
            } else {
                plain_node(forms, Shape::Constant(d), &[])
            }
        }
        Few::Zero => no_row(forms, span),
        Few::Two(_, _) => no_row(forms, span),
        Few::Three(_, _, _) => no_row(forms, span),
        Few::More => no_row(forms, span),
    }
}

fn lambda_node(
    forms: &mut Forms,
    texts: &Names,
    span: Span,
    binders: &[Binder],
    bs: u32,
) -> Result<Row, Memory>
    ensures grown { OnOk result (Grows forms.old forms.new) }
    ensures row { (vars : List Var) (xs : List SpecBinder) (d : Datum) (ds : List Datum) → AllPairs (λ a b. a ≢ b) texts.now → AllZip (IsBinder texts.now) binders.now xs → AreItems texts.now forms.old bs (d ∷ ds) → IfOk result (λ r. IsRow texts.now forms.new vars r (node lambda (twice xs) (inside (names xs) (body span (d ∷ ds)) ∷ []))) }
{
    let refusals = twice(forms.alloc(), binders)?;
    let binds = names_of(forms.alloc(), binders)?;
    let form = body(forms, span, bs)?;
    let parts = one_part(forms, binds, form)?;
    Ok(Row::Node {
        shape: Shape::Lambda,
        refusals,
        parts,
    })
}

/// `(lambda (x ..) B ..)`
pub fn lambda_row(forms: &mut Forms, texts: &Names, span: Span, items: u32) -> Result<Row, Memory>
    ensures grown { OnOk result (Grows forms.old forms.new) }
    ensures row { (vars : List Var) (ds : List Datum) → AllPairs (λ a b. a ≢ b) texts.now → AreItems texts.now forms.old items ds → IfOk result (λ r. IsRow texts.now forms.new vars r (lambda_row span ds)) }
{
    match with_body(forms, items) {
        None => no_row(forms, span),
        Some((params, bs)) => {
            let found = params_of(forms, params)?;
            match found {
                None => no_row(forms, span),
                Some(binders) => lambda_node(forms, texts, span, binders.as_slice(), bs),
            }
        }
    }
}

/// `(if a b)`, `(if a b c)`
pub fn if_row(forms: &mut Forms, span: Span, items: u32) -> Result<Row, Memory>
    ensures grown { OnOk result (Grows forms.old forms.new) }
    ensures row { (names : List (List ℕ)) (vars : List Var) (ds : List Datum) → AreItems names forms.old items ds → IfOk result (λ r. IsRow names forms.new vars r (if_row span ds)) }
{
    match few_items(forms, items) {
        Few::Two(a, b) => rewritten(
            forms,
            span,
            &[a, b],
            &[],
            &[
                Piece::Word(Word::If),
                Piece::Given(0),
                Piece::Given(1),
                Piece::Nil,
            ],
        ),
        Few::Three(a, b, c) => plain_node(forms, Shape::If, &[a, b, c]),
        Few::Zero => no_row(forms, span),
        Few::One(_) => no_row(forms, span),
        Few::More => no_row(forms, span),
    }
}

/// `(block a ..)`, at least one
pub fn block_row(forms: &mut Forms, span: Span, items: u32) -> Result<Row, Memory>
    ensures grown { OnOk result (Grows forms.old forms.new) }
    ensures row { (names : List (List ℕ)) (vars : List Var) (ds : List Datum) → AreItems names forms.old items ds → IfOk result (λ r. IsRow names forms.new vars r (block_row span ds)) }
{
    match split(forms, items) {
        None => no_row(forms, span),
        Some((first, behind)) => match split(forms, behind) {
            None => Ok(Row::StandsFor(first)),
            Some(_) => {
                let keys = keys_of(forms, items)?;
                plain_node(forms, Shape::Block, keys.as_slice())
            }
        },
    }
}

/// `(catch j B ..)`
pub fn catch_row(forms: &mut Forms, span: Span, items: u32) -> Result<Row, Memory>
    ensures grown { OnOk result (Grows forms.old forms.new) }
    ensures row { (names : List (List ℕ)) (vars : List Var) (ds : List Datum) → AreItems names forms.old items ds → IfOk result (λ r. IsRow names forms.new vars r (catch_row span ds)) }
{
    match with_body(forms, items) {
        None => no_row(forms, span),
        Some((escape, bs)) => match name_of(forms, escape) {
            None => no_row(forms, span),
            Some(name) => {
                let mut binds = Vec::new(forms.alloc());
                binds.push(name)?;
                let form = body(forms, span, bs)?;
                let parts = one_part(forms, binds, form)?;
                Ok(Row::Node {
                    shape: Shape::Catch,
                    refusals: Vec::new(forms.alloc()),
                    parts,
                })
            }
        },
    }
}
