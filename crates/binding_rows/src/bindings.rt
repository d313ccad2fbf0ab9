//! LET, LET* and ITERATE.
ghost use Rattle.std.specs.Prelude.{◌≢◌, ◌∷◌, [], List, ℕ, map, AllPairs, IfOk, OnOk};
ghost use Rattle.std.specs.List.{AllZip};
ghost use Rattle.t_base.specs.declared.basics.Var.{Var};
ghost use Rattle.t_forms.specs.declared.arena.Cell.{Cell};
ghost use Rattle.t_forms.specs.declared.arena.New.TheVariants as new;
ghost use Rattle.t_forms.specs.Data.{Datum, Name as SpecName, made, Binder as SpecBinder, listed, a_variable};
ghost use Rattle.t_forms.specs.Held.{Held, IsName};
ghost use Rattle.t_rows.specs.Bindings.{IsBinder, IsBinding};
ghost use Rattle.t_rows.specs.Given.{IsPart, IsRow};
ghost use Rattle.t_rows.specs.Lists.{Grows, AreHeld, AreItems};
ghost use Rattle.t_rows.specs.Rows.{Binding as SpecBinding, bindings_of, name_datum, lambda_form, if_formed, node, labels, plain, inside, iterate_node, let_node, let_row, let_star_row, iterate_row};

use std::alloc::Global;
use t_base::{Memory, Names, Span};
use t_forms::{Form, Forms, LocalName, New};
use t_objects::Word;
use t_rows::lists::{items_of, split, with_body};
use t_rows::making::{cons, items_of_keys, made};
use t_rows::names::{Binder, Binding, binder_of, bindings_of, bound_in, names_of, twice};
use t_rows::nodes::{no_row, rewritten};
use t_rows::templates::Piece;
use t_rows::words::{body, lambda_form};
use t_rows::{Binds, Part, Row, Shape};

/// `(let* ((x e) r ..) B ..)`
pub fn let_star_row(forms: &mut Forms, span: Span, items: u32) -> Result<Row, Memory>
    ensures grown { OnOk result (Grows forms.old forms.new) }
    ensures row { (names : List (List ℕ)) (vars : List Var) (ds : List Datum) → AreItems names forms.old items ds → IfOk result (λ r. IsRow names forms.new vars r (let_star_row span ds)) }
{
    match with_body(forms, items) {
        None => no_row(forms, span),
        Some((list, bs)) => match items_of(forms, list) {
            None => no_row(forms, span),
            Some(bindings) => match split(forms, bindings) {
                None => {
                    let form = body(forms, span, bs)?;
                    Ok(Row::StandsFor(form))
                }
                Some((first, others)) => rewritten(
                    forms,
                    span,
                    &[first],
                    &[others, bs],
                    &[
                        Piece::Word(Word::Let),
                        Piece::Open,
                        Piece::Given(0),
                        Piece::Close,
                        Piece::Open,
                        Piece::Word(Word::LetStar),
                        Piece::Open,
                        Piece::Rest(0),
                        Piece::Close,
                        Piece::Rest(1),
                        Piece::Close,
                    ],
                ),
            },
        },
    }
}

/// The values of bindings, outside the names.
fn value_parts(forms: &Forms, bindings: &[Binding]) -> Result<Vec<Part>, Memory>
    ensures { (names : List (List ℕ)) (xs : List SpecBinding) → AllZip (IsBinding names forms.now) bindings.now xs → IfOk result (λ parts. AllZip (IsPart names forms.now) parts.items (map (λ x. plain x.value) xs)) }
{
    let mut parts = Vec::with_capacity(forms.alloc(), bindings.len().saturating_add(1))?;
    'bindings: for binding in bindings {
        parts.push(Part {
            binds: Binds::Names(Vec::new(forms.alloc())),
            form: binding.value,
        })?;
    }
    Ok(parts)
}

/// LET with bindings.
fn let_node(
    forms: &mut Forms,
    texts: &Names,
    span: Span,
    bindings: &[Binding],
    bs: u32,
) -> Result<Row, Memory>
    ensures grown { OnOk result (Grows forms.old forms.new) }
    ensures row { (vars : List Var) (x : SpecBinding) (xs : List SpecBinding) (d : Datum) (ds : List Datum) → AllPairs (λ a b. a ≢ b) texts.now → AllZip (IsBinding texts.now forms.old) bindings.now (x ∷ xs) → AreItems texts.now forms.old bs (d ∷ ds) → IfOk result (λ r. IsRow texts.now forms.new vars r (let_node span (d ∷ ds) (x ∷ xs))) }
{
    let names = bound_in(forms.alloc(), bindings)?;
    let refusals = twice(forms.alloc(), names.as_slice())?;
    let binds = names_of(forms.alloc(), names.as_slice())?;
    let form = body(forms, span, bs)?;
    let mut parts = value_parts(forms, bindings)?;
    parts.push(Part {
        binds: Binds::Names(binds),
        form,
    })?;
    Ok(Row::Node {
        shape: Shape::Let,
        refusals,
        parts,
    })
}

/// LET, with or without bindings.
fn let_bindings(
    forms: &mut Forms,
    texts: &Names,
    span: Span,
    bindings: &[Binding],
    bs: u32,
) -> Result<Row, Memory>
    ensures grown { OnOk result (Grows forms.old forms.new) }
    ensures row { (vars : List Var) (xs : List SpecBinding) (d : Datum) (ds : List Datum) → AllPairs (λ a b. a ≢ b) texts.now → AllZip (IsBinding texts.now forms.old) bindings.now xs → AreItems texts.now forms.old bs (d ∷ ds) → IfOk result (λ r. IsRow texts.now forms.new vars r (let_node span (d ∷ ds) xs)) }
{
    if bindings.len() == 0 {
        let form = body(forms, span, bs)?;
        Ok(Row::StandsFor(form))
    } else {
        let_node(forms, texts, span, bindings, bs)
    }
}

/// `(let ((x e) ..) B ..)`
pub fn let_row(forms: &mut Forms, texts: &Names, span: Span, items: u32) -> Result<Row, Memory>
    ensures grown { OnOk result (Grows forms.old forms.new) }
    ensures row { (vars : List Var) (ds : List Datum) → AllPairs (λ a b. a ≢ b) texts.now → AreItems texts.now forms.old items ds → IfOk result (λ r. IsRow texts.now forms.new vars r (let_row span ds)) }
{
    match with_body(forms, items) {
        None => no_row(forms, span),
        Some((list, bs)) => {
            let found = bindings_of(forms, list)?;
            match found {
                None => no_row(forms, span),
                Some(bindings) => let_bindings(forms, texts, span, bindings.as_slice(), bs),
            }
        }
    }
}

/// The names of bindings, as forms.
fn places_of(alloc: Global, bindings: &[Binding]) -> Result<Vec<u32>, Memory>
    ensures { (names : List (List ℕ)) (cells : List Cell) (xs : List SpecBinding) → AllZip (IsBinding names cells) bindings.now xs → IfOk result (λ keys. AreHeld names cells keys.items (map (λ x. name_datum x.binds) xs)) }
{
    let mut keys = Vec::new(alloc);
    'bindings: for binding in bindings {
        keys.push(binding.place)?;
    }
    Ok(keys)
}

/// The values of bindings.
fn values_of(alloc: Global, bindings: &[Binding]) -> Result<Vec<u32>, Memory>
    ensures { (names : List (List ℕ)) (cells : List Cell) (xs : List SpecBinding) → AllZip (IsBinding names cells) bindings.now xs → IfOk result (λ keys. AreHeld names cells keys.items (map (λ x. x.value) xs)) }
{
    let mut keys = Vec::new(alloc);
    'bindings: for binding in bindings {
        keys.push(binding.value)?;
    }
    Ok(keys)
}

/// The procedure of ITERATE.
fn iterate_procedure(
    forms: &mut Forms,
    span: Span,
    bindings: &[Binding],
    bs: u32,
) -> Result<u32, Memory>
    ensures grown { OnOk result (Grows forms.old forms.new) }
    ensures made { (names : List (List ℕ)) (xs : List SpecBinding) (ds : List Datum) → AllZip (IsBinding names forms.old) bindings.now xs → AreItems names forms.old bs ds → IfOk result (λ key. Held names forms.new key (lambda_form span (listed span (map (λ x. name_datum x.binds) xs)) ds)) }
{
    let places = places_of(forms.alloc(), bindings)?;
    let params = items_of_keys(forms, span, places.as_slice())?;
    let procedure = lambda_form(forms, span, params, bs)?;
    Ok(procedure)
}

/// The first call of ITERATE's procedure.
fn iterate_call(
    forms: &mut Forms,
    span: Span,
    at: Span,
    bindings: &[Binding],
) -> Result<u32, Memory>
    ensures grown { OnOk result (Grows forms.old forms.new) }
    ensures made { (names : List (List ℕ)) (xs : List SpecBinding) → AllZip (IsBinding names forms.old) bindings.now xs → IfOk result (λ key. Held names forms.new key (listed span (a_variable at new.Start ∷ map (λ x. x.value) xs))) }
{
    let values = values_of(forms.alloc(), bindings)?;
    let operands = items_of_keys(forms, span, values.as_slice())?;
    let start = made(forms, at, Form::Variable(New::Start))?;
    let call = cons(forms, span, start, operands)?;
    Ok(call)
}

/// ITERATE of a procedure and its first call.
fn iterate_labels(forms: &Forms, name: LocalName, procedure: u32, call: u32) -> Result<Row, Memory>
    ensures { (names : List (List ℕ)) (vars : List Var) (n : SpecName) (p : Datum) (q : Datum) → IsName names name n → Held names forms.now procedure p → Held names forms.now call q → IfOk result (λ r. IsRow names forms.now vars r (node labels [] (inside (n ∷ []) p ∷ inside (made new.Start ∷ []) q ∷ []))) }
{
    let mut binds = Vec::new(forms.alloc());
    binds.push(name)?;
    let mut starts = Vec::new(forms.alloc());
    starts.push(LocalName::Made(New::Start))?;
    let mut parts = Vec::new(forms.alloc());
    parts.push(Part {
        binds: Binds::Names(binds),
        form: procedure,
    })?;
    parts.push(Part {
        binds: Binds::Names(starts),
        form: call,
    })?;
    Ok(Row::Node {
        shape: Shape::Labels,
        refusals: Vec::new(forms.alloc()),
        parts,
    })
}

fn iterate_node(
    forms: &mut Forms,
    span: Span,
    name: Binder,
    bindings: &[Binding],
    bs: u32,
) -> Result<Row, Memory>
    ensures grown { OnOk result (Grows forms.old forms.new) }
    ensures row { (names : List (List ℕ)) (vars : List Var) (f : SpecBinder) (xs : List SpecBinding) (ds : List Datum) → IsBinder names name f → AllZip (IsBinding names forms.old) bindings.now xs → AreItems names forms.old bs ds → IfOk result (λ r. IsRow names forms.new vars r (iterate_node span ds f xs)) }
{
    let procedure = iterate_procedure(forms, span, bindings, bs)?;
    let call = iterate_call(forms, span, name.at, bindings)?;
    let row = iterate_labels(forms, name.name, procedure, call)?;
    Ok(row)
}

/// `(iterate f ((x e) ..) B ..)`, by its name
fn iterate_named(
    forms: &mut Forms,
    span: Span,
    name: Binder,
    list: u32,
    bs: u32,
) -> Result<Row, Memory>
    ensures grown { OnOk result (Grows forms.old forms.new) }
    ensures row { (names : List (List ℕ)) (vars : List Var) (f : SpecBinder) (d : Datum) (ds : List Datum) → IsBinder names name f → Held names forms.old list d → AreItems names forms.old bs ds → IfOk result (λ r. IsRow names forms.new vars r (if_formed span (iterate_node span ds f) (bindings_of d))) }
{
    let found = bindings_of(forms, list)?;
    match found {
        None => no_row(forms, span),
        Some(bindings) => iterate_node(forms, span, name, bindings.as_slice(), bs),
    }
}

/// `(iterate f ((x e) ..) B ..)`
pub fn iterate_row(forms: &mut Forms, span: Span, items: u32) -> Result<Row, Memory>
    ensures grown { OnOk result (Grows forms.old forms.new) }
    ensures row { (names : List (List ℕ)) (vars : List Var) (ds : List Datum) → AreItems names forms.old items ds → IfOk result (λ r. IsRow names forms.new vars r (iterate_row span ds)) }
{
    match split(forms, items) {
        None => no_row(forms, span),
        Some((name, behind)) => match with_body(forms, behind) {
            None => no_row(forms, span),
            Some((list, bs)) => match binder_of(forms, name) {
                None => no_row(forms, span),
                Some(name) => iterate_named(forms, span, name, list, bs),
            },
        },
    }
}
