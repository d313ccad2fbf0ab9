//! LOCATIVE.
ghost use Rattle.std.specs.Prelude.{◌≡◌, ◌∷◌, [], codes, List, ℕ, IfOk, OnOk};
ghost use Rattle.t_base.specs.declared.basics.Var.{Var};
ghost use Rattle.t_forms.specs.declared.arena.New.TheVariants as new;
ghost use Rattle.t_forms.specs.Data.{Datum, listed, items_of, name_of, a_variable};
ghost use Rattle.t_forms.specs.Held.{Held};
ghost use Rattle.t_rows.specs.Given.{IsRow};
ghost use Rattle.t_rows.specs.Lists.{Grows, AreHeld, AreItems, is_symbol};
ghost use Rattle.t_rows.specs.Rows.{stands_for, word_, part_bindings, part_variables, locative_object, locative_call, locative_items, if_formed, locative_row};

use t_base::{Memory, Span};
use t_forms::{Form, Forms, New};
use t_objects::Word;
use t_rows::Row;
use t_rows::lists::{Few, few_items, is_pair, items_of, keys_of, name_of, split};
use t_rows::making::{cons, items_of_keys, list_of_keys, made};
use t_rows::nodes::{no_row, rewritten};
use t_rows::templates::{Piece, written};

fn is_symbol(forms: &Forms, key: u32) -> bool
    ensures { (names : List (List ℕ)) (d : Datum) → Held names forms.now key d → result ≡ is_symbol d }
{
    match forms.get(key) {
        Some(cell) => match &cell.form {
            Form::Sym(_) => true,
            Form::Word(_) => true,
            Form::Variable(_) => true,
            _ => false,
        },
        None => false,
    }
}

/// `(object nil ((contents u) place) ((set-contents u w) (set place w)))`
fn locative_object(forms: &mut Forms, span: Span, place: u32) -> Result<u32, Memory>
    ensures grown { OnOk result (Grows forms.old forms.new) }
    ensures made { (names : List (List ℕ)) (d : Datum) → Held names forms.old place d → IfOk result (λ key. Held names forms.new key (locative_object span d)) }
{
    let object = written(
        forms,
        span,
        &[place],
        &[],
        &[
            Piece::Word(Word::Object),
            Piece::Nil,
            Piece::Open,
            Piece::Open,
            Piece::Operation(1),
            Piece::Variable(New::Own),
            Piece::Close,
            Piece::Given(0),
            Piece::Close,
            Piece::Open,
            Piece::Open,
            Piece::Operation(2),
            Piece::Variable(New::Own),
            Piece::Variable(New::Content),
            Piece::Close,
            Piece::Open,
            Piece::Word(Word::Set),
            Piece::Given(0),
            Piece::Variable(New::Content),
            Piece::Close,
            Piece::Close,
        ],
    )?;
    Ok(object)
}

/// `(u e)`
fn part_binding(forms: &mut Forms, span: Span, number: u32, key: u32) -> Result<u32, Memory>
    ensures grown { OnOk result (Grows forms.old forms.new) }
    ensures made { (names : List (List ℕ)) (d : Datum) → Held names forms.old key d → IfOk result (λ binding. Held names forms.new binding (listed span (a_variable span (new.Part number) ∷ d ∷ []))) }
{
    let binding = written(
        forms,
        span,
        &[key],
        &[],
        &[Piece::Variable(New::Part(number)), Piece::Given(0)],
    )?;
    Ok(binding)
}

/// `((u1 e) ..)`, from the number on
fn part_bindings(forms: &mut Forms, span: Span, from: u32, keys: &[u32]) -> Result<Vec<u32>, Memory>
    ensures grown { OnOk result (Grows forms.old forms.new) }
    ensures made { (names : List (List ℕ)) (ds : List Datum) → AreHeld names forms.old keys.now ds → IfOk result (λ found. AreHeld names forms.new found.items (part_bindings span from ds)) }
{
    let mut bindings = Vec::new(forms.alloc());
    let mut number = from;
    'keys: for key in keys {
        let binding = part_binding(forms, span, number, *key)?;
        bindings.push(binding)?;
        if number == u32::MAX {
            return Err(Memory);
        }
        number += 1;
    }
    Ok(bindings)
}

/// The new variables, from the number on
fn part_variables(
    forms: &mut Forms,
    span: Span,
    from: u32,
    keys: &[u32],
) -> Result<Vec<u32>, Memory>
    ensures grown { OnOk result (Grows forms.old forms.new) }
    ensures made { (names : List (List ℕ)) (ds : List Datum) → AreHeld names forms.old keys.now ds → IfOk result (λ found. AreHeld names forms.new found.items (part_variables span from ds)) }
{
    let mut variables = Vec::new(forms.alloc());
    let mut number = from;
    'keys: for _ in keys {
        let variable = made(forms, span, Form::Variable(New::Part(number)))?;
        variables.push(variable)?;
        if number == u32::MAX {
            return Err(Memory);
        }
        number += 1;
    }
    Ok(variables)
}

/// LET of new names around the object of a place
fn let_around(forms: &mut Forms, span: Span, bindings: u32, place: u32) -> Result<Row, Memory>
    ensures grown { OnOk result (Grows forms.old forms.new) }
    ensures row { (names : List (List ℕ)) (vars : List Var) (bs : Datum) (d : Datum) → Held names forms.old bindings bs → Held names forms.old place d → IfOk result (λ r. IsRow names forms.new vars r (stands_for (listed span (word_ span (codes "let") ∷ bs ∷ locative_object span d ∷ [])))) }
{
    let object = locative_object(forms, span, place)?;
    rewritten(
        forms,
        span,
        &[bindings, object],
        &[],
        &[Piece::Word(Word::Let), Piece::Given(0), Piece::Given(1)],
    )
}

/// `((u1 e) ..)` as a list
fn bindings_list(forms: &mut Forms, span: Span, from: u32, keys: &[u32]) -> Result<u32, Memory>
    ensures grown { OnOk result (Grows forms.old forms.new) }
    ensures made { (names : List (List ℕ)) (ds : List Datum) → AreHeld names forms.old keys.now ds → IfOk result (λ key. Held names forms.new key (listed span (part_bindings span from ds))) }
{
    let bindings = part_bindings(forms, span, from, keys)?;
    let list = list_of_keys(forms, span, bindings.as_slice())?;
    Ok(list)
}

/// The new variables as items
fn variable_items(forms: &mut Forms, span: Span, from: u32, keys: &[u32]) -> Result<u32, Memory>
    ensures grown { OnOk result (Grows forms.old forms.new) }
    ensures made { (names : List (List ℕ)) (ds : List Datum) → AreHeld names forms.old keys.now ds → IfOk result (λ items. AreItems names forms.new items (part_variables span from ds)) }
{
    let variables = part_variables(forms, span, from, keys)?;
    let items = items_of_keys(forms, span, variables.as_slice())?;
    Ok(items)
}

/// `(locative (a e ..))`, where `a` is a symbol
fn locative_of_symbol(
    forms: &mut Forms,
    span: Span,
    operator: u32,
    items: u32,
) -> Result<Row, Memory>
    ensures grown { OnOk result (Grows forms.old forms.new) }
    ensures row { (names : List (List ℕ)) (vars : List Var) (a : Datum) (es : List Datum) → Held names forms.old operator a → AreItems names forms.old items es → IfOk result (λ r. IsRow names forms.new vars r (stands_for (listed span (word_ span (codes "let") ∷ listed span (part_bindings span 1 es) ∷ locative_object span (listed span (a ∷ part_variables span 1 es)) ∷ [])))) }
{
    let keys = keys_of(forms, items)?;
    let bindings = bindings_list(forms, span, 1, keys.as_slice())?;
    let variables = variable_items(forms, span, 1, keys.as_slice())?;
    let place = cons(forms, span, operator, variables)?;
    let row = let_around(forms, span, bindings, place)?;
    Ok(row)
}

/// `(locative (a e ..))`, where `a` isn't a symbol, by all the items
fn locative_of_form(forms: &mut Forms, span: Span, items: u32) -> Result<Row, Memory>
    ensures grown { OnOk result (Grows forms.old forms.new) }
    ensures row { (names : List (List ℕ)) (vars : List Var) (ds : List Datum) → AreItems names forms.old items ds → IfOk result (λ r. IsRow names forms.new vars r (stands_for (listed span (word_ span (codes "let") ∷ listed span (part_bindings span 0 ds) ∷ locative_object span (listed span (part_variables span 0 ds)) ∷ [])))) }
{
    let keys = keys_of(forms, items)?;
    let bindings = bindings_list(forms, span, 0, keys.as_slice())?;
    let variables = part_variables(forms, span, 0, keys.as_slice())?;
    let place = list_of_keys(forms, span, variables.as_slice())?;
    let row = let_around(forms, span, bindings, place)?;
    Ok(row)
}

/// `(locative (a e ..))`
fn locative_of_list(forms: &mut Forms, span: Span, items: u32) -> Result<Row, Memory>
    ensures grown { OnOk result (Grows forms.old forms.new) }
    ensures row { (names : List (List ℕ)) (vars : List Var) (a : Datum) (es : List Datum) → AreItems names forms.old items (a ∷ es) → IfOk result (λ r. IsRow names forms.new vars r (locative_call span a es)) }
{
    match split(forms, items) {
        None => Err(Memory),
        Some((operator, behind)) => {
            if is_symbol(forms, operator) {
                locative_of_symbol(forms, span, operator, behind)
            } else {
                locative_of_form(forms, span, items)
            }
        }
    }
}

/// `(locative (a e ..))`, by its place
fn locative_of_pair(forms: &mut Forms, span: Span, place: u32) -> Result<Row, Memory>
    ensures grown { OnOk result (Grows forms.old forms.new) }
    ensures row { (names : List (List ℕ)) (vars : List Var) (d : Datum) → Held names forms.old place d → IfOk result (λ r. IsRow names forms.new vars r (locative_items span (items_of d))) }
{
    match items_of(forms, place) {
        None => no_row(forms, span),
        Some(items) => match split(forms, items) {
            None => no_row(forms, span),
            Some(_) => locative_of_list(forms, span, items),
        },
    }
}

/// `(locative x)`, where `x` isn't a pair
fn locative_of_name(forms: &mut Forms, span: Span, place: u32) -> Result<Row, Memory>
    ensures grown { OnOk result (Grows forms.old forms.new) }
    ensures row { (names : List (List ℕ)) (vars : List Var) (d : Datum) → Held names forms.old place d → IfOk result (λ r. IsRow names forms.new vars r (if_formed span (λ n. stands_for (locative_object span d)) (name_of d))) }
{
    match name_of(forms, place) {
        None => no_row(forms, span),
        Some(_) => {
            let object = locative_object(forms, span, place)?;
            Ok(Row::StandsFor(object))
        }
    }
}

/// `(locative x)`, `(locative (a e ..))`
pub fn locative_row(forms: &mut Forms, span: Span, items: u32) -> Result<Row, Memory>
    ensures grown { OnOk result (Grows forms.old forms.new) }
    ensures row { (names : List (List ℕ)) (vars : List Var) (ds : List Datum) → AreItems names forms.old items ds → IfOk result (λ r. IsRow names forms.new vars r (locative_row span ds)) }
{
    match few_items(forms, items) {
        Few::One(place) => {
            if is_pair(forms, place) {
                locative_of_pair(forms, span, place)
            } else {
                locative_of_name(forms, span, place)
            }
        }
        Few::Zero => no_row(forms, span),
        Few::Two(_, _) => no_row(forms, span),
        Few::Three(_, _, _) => no_row(forms, span),
        Few::More => no_row(forms, span),
    }
}
