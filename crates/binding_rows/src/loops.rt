//! DO.
ghost use Rattle.std.specs.Prelude.{◌≡◌, ◌∷◌, [], ◌++◌, codes, List, ℕ, map, IfOk, OnOk};
ghost use Rattle.std.specs.List.{AllZip};
ghost use Rattle.t_base.specs.declared.basics.Var.{Var};
ghost use Rattle.t_forms.specs.declared.arena.Cell.{Cell};
ghost use Rattle.t_forms.specs.declared.arena.New.TheVariants as new;
ghost use Rattle.t_forms.specs.Data.{Datum, all_of, items_of, listed, a_variable};
ghost use Rattle.t_forms.specs.Held.{Held};
ghost use Rattle.t_rows.specs.Bindings.{IsAllOf};
ghost use Rattle.t_rows.specs.Given.{IsRow};
ghost use Rattle.t_rows.specs.Lists.{Grows, AreHeld, AreItems};
ghost use Rattle.binding_rows.specs.Steps.{IsStep, IsStepOf, step_of, turn_call, turn_body};
ghost use Rattle.t_rows.specs.Rows.{Step as SpecStep, steps_of, result_of, if_formed, do_step, do_form, stands_for, do_row};

use std::alloc::Global;
use t_base::{Memory, Span};
use t_forms::{Form, Forms, New};
use t_objects::Word;
use t_rows::Row;
use t_rows::lists::{Few, few_items, items_of, keys_of, split};
use t_rows::making::{cons, items_of_keys, keys_and_last, list_of_keys, made};
use t_rows::nodes::{no_row, rewritten};
use t_rows::templates::{Piece, written};

/// A binding of DO: the forms of its name, of its first value and of the next one.
#[derive(Clone, Copy)]
pub struct Step {
    pub name: u32,
    pub first: u32,
    pub next: u32,
}

/// `(x e)`, `(x e s)`
fn step_of(forms: &Forms, key: u32) -> Option<Step>
    ensures { (names : List (List ℕ)) (d : Datum) → Held names forms.now key d → IsStepOf names forms.now result d }
{
    match items_of(forms, key) {
        None => None,
        Some(items) => match few_items(forms, items) {
            Few::Two(name, first) => Some(Step {
                name,
                first,
                next: name,
            }),
            Few::Three(name, first, next) => Some(Step { name, first, next }),
            Few::Zero => None,
            Few::One(_) => None,
            Few::More => None,
        },
    }
}

fn all_steps(forms: &Forms, keys: &[u32]) -> Result<Option<Vec<Step>>, Memory>
    ensures { (names : List (List ℕ)) (ds : List Datum) → AreHeld names forms.now keys.now ds → IfOk result (λ r. IsAllOf (IsStep names forms.now) r (all_of (map step_of ds))) }
{
    let mut steps = Vec::new(forms.alloc());
    'keys: for key in keys {
        match step_of(forms, *key) {
            Some(step) => steps.push(step)?,
            None => return Ok(None),
        }
    }
    Ok(Some(steps))
}

/// The bindings in a list, if it is a list of bindings.
fn steps_of(forms: &Forms, key: u32) -> Result<Option<Vec<Step>>, Memory>
    ensures { (names : List (List ℕ)) (d : Datum) → Held names forms.now key d → IfOk result (λ r. IsAllOf (IsStep names forms.now) r (steps_of d)) }
{
    match items_of(forms, key) {
        None => Ok(None),
        Some(items) => {
            let keys = keys_of(forms, items)?;
            let steps = all_steps(forms, keys.as_slice())?;
            Ok(steps)
        }
    }
}

/// `(x e)`
fn first_binding(forms: &mut Forms, span: Span, name: u32, first: u32) -> Result<u32, Memory>
    ensures grown { OnOk result (Grows forms.old forms.new) }
    ensures made { (names : List (List ℕ)) (x : Datum) (e : Datum) → Held names forms.old name x → Held names forms.old first e → IfOk result (λ key. Held names forms.new key (listed span (x ∷ e ∷ []))) }
{
    let binding = written(
        forms,
        span,
        &[name, first],
        &[],
        &[Piece::Given(0), Piece::Given(1)],
    )?;
    Ok(binding)
}

/// `(x e)` of each binding
fn first_bindings(forms: &mut Forms, span: Span, steps: &[Step]) -> Result<Vec<u32>, Memory>
    ensures grown { OnOk result (Grows forms.old forms.new) }
    ensures made { (names : List (List ℕ)) (xs : List SpecStep) → AllZip (IsStep names forms.old) steps.now xs → IfOk result (λ keys. AreHeld names forms.new keys.items (map (λ x. listed span (x.name ∷ x.first ∷ [])) xs)) }
{
    let mut bindings = Vec::new(forms.alloc());
    'steps: for step in steps {
        let binding = first_binding(forms, span, step.name, step.first)?;
        bindings.push(binding)?;
    }
    Ok(bindings)
}

/// The next values.
fn next_values(alloc: Global, steps: &[Step]) -> Result<Vec<u32>, Memory>
    ensures { (names : List (List ℕ)) (cells : List Cell) (xs : List SpecStep) → AllZip (IsStep names cells) steps.now xs → IfOk result (λ keys. AreHeld names cells keys.items (map (λ x. x.next) xs)) }
{
    let mut keys = Vec::new(alloc);
    'steps: for step in steps {
        keys.push(step.next)?;
    }
    Ok(keys)
}

/// `(u s ..)`
fn turn_call(forms: &mut Forms, span: Span, steps: &[Step]) -> Result<u32, Memory>
    ensures grown { OnOk result (Grows forms.old forms.new) }
    ensures made { (names : List (List ℕ)) (xs : List SpecStep) → AllZip (IsStep names forms.old) steps.now xs → IfOk result (λ key. Held names forms.new key (turn_call span xs)) }
{
    let values = next_values(forms.alloc(), steps)?;
    let operands = items_of_keys(forms, span, values.as_slice())?;
    let turn = made(forms, span, Form::Variable(New::Turn))?;
    let call = cons(forms, span, turn, operands)?;
    Ok(call)
}

/// `(block b .. (u s ..))`
fn turn_body(forms: &mut Forms, span: Span, steps: &[Step], bs: u32) -> Result<u32, Memory>
    ensures grown { OnOk result (Grows forms.old forms.new) }
    ensures made { (names : List (List ℕ)) (xs : List SpecStep) (ds : List Datum) → AllZip (IsStep names forms.old) steps.now xs → AreItems names forms.old bs ds → IfOk result (λ key. Held names forms.new key (turn_body span ds xs)) }
{
    let call = turn_call(forms, span, steps)?;
    let keys = keys_and_last(forms, bs, call)?;
    let items = items_of_keys(forms, span, keys.as_slice())?;
    let block = written(
        forms,
        span,
        &[],
        &[items],
        &[Piece::Word(Word::Block), Piece::Rest(0)],
    )?;
    Ok(block)
}

/// The block of `r ..`, or nil without `r`
fn result_of(forms: &mut Forms, span: Span, items: u32) -> Result<u32, Memory>
    ensures grown { OnOk result (Grows forms.old forms.new) }
    ensures made { (names : List (List ℕ)) (rs : List Datum) → AreItems names forms.old items rs → IfOk result (λ key. Held names forms.new key (result_of span rs)) }
{
    match split(forms, items) {
        None => {
            let nil = made(forms, span, Form::Nil)?;
            Ok(nil)
        }
        Some(_) => {
            let block = written(
                forms,
                span,
                &[],
                &[items],
                &[Piece::Word(Word::Block), Piece::Rest(0)],
            )?;
            Ok(block)
        }
    }
}

fn do_form(
    forms: &mut Forms,
    span: Span,
    steps: &[Step],
    test: u32,
    results: u32,
    bs: u32,
) -> Result<Row, Memory>
    ensures grown { OnOk result (Grows forms.old forms.new) }
    ensures row { (names : List (List ℕ)) (vars : List Var) (xs : List SpecStep) (t : Datum) (rs : List Datum) (ds : List Datum) → AllZip (IsStep names forms.old) steps.now xs → Held names forms.old test t → AreItems names forms.old results rs → AreItems names forms.old bs ds → IfOk result (λ r. IsRow names forms.new vars r (stands_for (do_form span ds xs t rs))) }
{
    let bindings = first_bindings(forms, span, steps)?;
    let list = list_of_keys(forms, span, bindings.as_slice())?;
    let turns = turn_body(forms, span, steps, bs)?;
    let answer = result_of(forms, span, results)?;
    let row = rewritten(
        forms,
        span,
        &[list, test, answer, turns],
        &[],
        &[
            Piece::Word(Word::Iterate),
            Piece::Variable(New::Turn),
            Piece::Given(0),
            Piece::Open,
            Piece::Word(Word::If),
            Piece::Given(1),
            Piece::Given(2),
            Piece::Given(3),
            Piece::Close,
        ],
    )?;
    Ok(row)
}

/// DO by its bindings
fn do_with(forms: &mut Forms, span: Span, steps: &[Step], ends: u32, bs: u32) -> Result<Row, Memory>
    ensures grown { OnOk result (Grows forms.old forms.new) }
    ensures row { (names : List (List ℕ)) (vars : List Var) (xs : List SpecStep) (e : Datum) (ds : List Datum) → AllZip (IsStep names forms.old) steps.now xs → Held names forms.old ends e → AreItems names forms.old bs ds → IfOk result (λ r. IsRow names forms.new vars r (if_formed span (do_step span ds xs) (items_of e))) }
{
    match items_of(forms, ends) {
        None => no_row(forms, span),
        Some(items) => match split(forms, items) {
            None => no_row(forms, span),
            Some((test, results)) => do_form(forms, span, steps, test, results, bs),
        },
    }
}

fn do_found(forms: &mut Forms, span: Span, list: u32, ends: u32, bs: u32) -> Result<Row, Memory>
    ensures grown { OnOk result (Grows forms.old forms.new) }
    ensures row { (names : List (List ℕ)) (vars : List Var) (d : Datum) (e : Datum) (ds : List Datum) → Held names forms.old list d → Held names forms.old ends e → AreItems names forms.old bs ds → IfOk result (λ r. IsRow names forms.new vars r (do_row span (d ∷ e ∷ ds))) }
{
    let found = steps_of(forms, list)?;
    match found {
        None => no_row(forms, span),
        Some(steps) => do_with(forms, span, steps.as_slice(), ends, bs),
    }
}

/// `(do ((x e s) ..) (t r ..) b ..)`
pub fn do_row(forms: &mut Forms, span: Span, items: u32) -> Result<Row, Memory>
    ensures grown { OnOk result (Grows forms.old forms.new) }
    ensures row { (names : List (List ℕ)) (vars : List Var) (ds : List Datum) → AreItems names forms.old items ds → IfOk result (λ r. IsRow names forms.new vars r (do_row span ds)) }
{
    match split(forms, items) {
        None => no_row(forms, span),
        Some((list, behind)) => match split(forms, behind) {
            None => no_row(forms, span),
            Some((ends, bs)) => do_found(forms, span, list, ends, bs),
        },
    }
}
