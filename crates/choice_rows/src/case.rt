//! CASE.
ghost use Rattle.std.specs.Prelude.{◌≡◌, ◌∷◌, [], codes, List, ℕ, IfOk, OnOk};
ghost use Rattle.std.specs.List.{list_all};
ghost use Rattle.t_base.specs.declared.basics.Var.{Var};
ghost use Rattle.t_forms.specs.Data.{Datum, listed, a_nil};
ghost use Rattle.t_forms.specs.Held.{Held};
ghost use Rattle.choice_rows.specs.Cases.{is_key_form, no_more};
ghost use Rattle.t_rows.specs.Lists.{IsHeldIf};
ghost use Rattle.t_rows.specs.Given.{IsRow};
ghost use Rattle.t_rows.specs.Lists.{Grows, AreHeld, AreItems};
ghost use Rattle.t_rows.specs.Rows.{word_, is_key, key_test, case_chosen, case_last, case_keys, case_clauses, case_row};

use crate::cond::is_else;
use t_base::{Memory, Prim, Span};
use t_forms::{Form, Forms, New};
use t_objects::Word;
use t_rows::Row;
use t_rows::lists::{items_of, keys_of, split, with_body, word_of};
use t_rows::making::made;
use t_rows::nodes::{no_row, rewritten};
use t_rows::templates::{Piece, written};
use t_rows::words::body;

fn is_key_form(form: &Form) -> bool
    ensures { result ≡ is_key_form form.now }
{
    match form {
        Form::Fix(_) => true,
        Form::Char(_) => true,
        Form::Nil => true,
        Form::True => true,
        Form::Sym(_) => true,
        Form::Word(_) => true,
        Form::Str(_) => false,
        Form::Variable(_) => false,
        Form::Builtin(_) => false,
        Form::Operation(_) => false,
        Form::Listing => false,
        Form::Pair { .. } => false,
    }
}

fn is_key(forms: &Forms, key: u32) -> bool
    ensures { (names : List (List ℕ)) (d : Datum) → Held names forms.now key d → result ≡ is_key d }
{
    match forms.get(key) {
        Some(cell) => is_key_form(&cell.form),
        None => false,
    }
}

fn are_keys(forms: &Forms, keys: &[u32]) -> bool
    ensures { (names : List (List ℕ)) (ds : List Datum) → AreHeld names forms.now keys.now ds → result ≡ list_all is_key ds }
{
    'keys: for key in keys {
        let is = is_key(forms, *key);
        if !is {
            return false;
        }
    }
    true
}

/// `(if (eq? u 'k) #t ..)` before the test of other keys
fn one_test(forms: &mut Forms, span: Span, key: u32, others: u32) -> Result<u32, Memory>
    ensures grown { OnOk result (Grows forms.old forms.new) }
    ensures made { (names : List (List ℕ)) (k : Datum) (ks : List Datum) → Held names forms.old key k → Held names forms.old others (key_test span ks) → IfOk result (λ test. Held names forms.new test (key_test span (k ∷ ks))) }
{
    let test = written(
        forms,
        span,
        &[key, others],
        &[],
        &[
            Piece::Word(Word::If),
            Piece::Open,
            Piece::Builtin(Prim::Eq),
            Piece::Variable(New::Chosen),
            Piece::Open,
            Piece::Word(Word::Quote),
            Piece::Given(0),
            Piece::Close,
            Piece::Close,
            Piece::True,
            Piece::Given(1),
        ],
    )?;
    Ok(test)
}

/// The test of keys.
fn key_test(forms: &mut Forms, span: Span, keys: &[u32]) -> Result<u32, Memory>
    ensures grown { OnOk result (Grows forms.old forms.new) }
    ensures made { (names : List (List ℕ)) (ks : List Datum) → AreHeld names forms.old keys.now ks → IfOk result (λ test. Held names forms.new test (key_test span ks)) }
{
    let mut test = made(forms, span, Form::Nil)?;
    let mut at = keys.len();
    'keys: while at > 0 {
        at -= 1;
        test = one_test(forms, span, keys[at], test)?;
    }
    Ok(test)
}

/// `((k ..) B ..)`, by its keys, before what other clauses stand for
fn keyed_clause(
    forms: &mut Forms,
    span: Span,
    keys: &[u32],
    items: u32,
    others: u32,
) -> Result<u32, Memory>
    ensures grown { OnOk result (Grows forms.old forms.new) }
    ensures made { (names : List (List ℕ)) (ks : List Datum) (bs : List Datum) (r : Datum) → AreHeld names forms.old keys.now ks → AreItems names forms.old items bs → Held names forms.old others r → IfOk result (λ key. Held names forms.new key (listed span (word_ span (codes "if") ∷ key_test span ks ∷ listed span (word_ span (codes "block") ∷ bs) ∷ r ∷ []))) }
{
    let test = key_test(forms, span, keys)?;
    let clause = written(
        forms,
        span,
        &[test, others],
        &[items],
        &[
            Piece::Word(Word::If),
            Piece::Given(0),
            Piece::Open,
            Piece::Word(Word::Block),
            Piece::Rest(0),
            Piece::Close,
            Piece::Given(1),
        ],
    )?;
    Ok(clause)
}

fn clause_if_keys(
    forms: &mut Forms,
    span: Span,
    keys: &[u32],
    items: u32,
    others: u32,
) -> Result<Option<u32>, Memory>
    ensures grown { OnOk result (Grows forms.old forms.new) }
    ensures made { (names : List (List ℕ)) (ks : List Datum) (bs : List Datum) (r : Datum) → AreHeld names forms.old keys.now ks → AreItems names forms.old items bs → Held names forms.old others r → IfOk result (λ key. IsHeldIf names forms.new key (case_chosen span bs (Some r) ks)) }
{
    if are_keys(forms, keys) {
        let form = keyed_clause(forms, span, keys, items, others)?;
        Ok(Some(form))
    } else {
        Ok(None)
    }
}

/// A clause with keys before others.
fn case_keys(forms: &mut Forms, span: Span, clause: u32, others: u32) -> Result<Option<u32>, Memory>
    ensures grown { OnOk result (Grows forms.old forms.new) }
    ensures made { (names : List (List ℕ)) (ds : List Datum) (r : Datum) → AreItems names forms.old clause ds → Held names forms.old others r → IfOk result (λ key. IsHeldIf names forms.new key (case_keys span ds (Some r))) }
{
    match with_body(forms, clause) {
        None => Ok(None),
        Some((list, items)) => match items_of(forms, list) {
            None => Ok(None),
            Some(listed) => {
                let keys = keys_of(forms, listed)?;
                let found = clause_if_keys(forms, span, keys.as_slice(), items, others)?;
                Ok(found)
            }
        },
    }
}

/// The last clause, which may be `(else B ..)`.
fn last_clause(forms: &mut Forms, span: Span, clause: u32, nil: u32) -> Result<Option<u32>, Memory>
    ensures grown { OnOk result (Grows forms.old forms.new) }
    ensures made { (names : List (List ℕ)) (ds : List Datum) → AreItems names forms.old clause ds → Held names forms.old nil (a_nil span) → IfOk result (λ key. IsHeldIf names forms.new key (case_last span ds)) }
{
    match with_body(forms, clause) {
        None => Ok(None),
        Some((first, items)) => {
            if is_else(word_of(forms, first)) {
                let form = body(forms, span, items)?;
                Ok(Some(form))
            } else {
                let found = case_keys(forms, span, clause, nil)?;
                Ok(found)
            }
        }
    }
}

/// A clause before what other clauses stand for.
fn clause_before(
    forms: &mut Forms,
    span: Span,
    clause: u32,
    last: bool,
    others: u32,
) -> Result<Option<u32>, Memory>
    ensures grown { OnOk result (Grows forms.old forms.new) }
    ensures made { (names : List (List ℕ)) (d : Datum) (cs : List Datum) (r : Datum) → Held names forms.old clause d → last ≡ no_more cs → case_clauses span cs ≡ Some r → Held names forms.old others r → IfOk result (λ key. IsHeldIf names forms.new key (case_clauses span (d ∷ cs))) }
{
    match items_of(forms, clause) {
        None => Ok(None),
        Some(items) => {
            if last {
                let found = last_clause(forms, span, items, others)?;
                Ok(found)
            } else {
                let found = case_keys(forms, span, items, others)?;
                Ok(found)
            }
        }
    }
}

/// What clauses stand for, if each is one.
fn case_clauses(forms: &mut Forms, span: Span, clauses: &[u32]) -> Result<Option<u32>, Memory>
    ensures grown { OnOk result (Grows forms.old forms.new) }
    ensures made { (names : List (List ℕ)) (cs : List Datum) → AreHeld names forms.old clauses.now cs → IfOk result (λ key. IsHeldIf names forms.new key (case_clauses span cs)) }
{
    let mut others = made(forms, span, Form::Nil)?;
    let mut last = true;
    let mut at = clauses.len();
    'clauses: while at > 0 {
        at -= 1;
        let found = clause_before(forms, span, clauses[at], last, others)?;
        match found {
            None => return Ok(None),
            Some(form) => others = form,
        }
        last = false;
    }
    Ok(Some(others))
}

/// `(case e c ..)`
pub fn case_row(forms: &mut Forms, span: Span, items: u32) -> Result<Row, Memory>
    ensures grown { OnOk result (Grows forms.old forms.new) }
    ensures row { (names : List (List ℕ)) (vars : List Var) (ds : List Datum) → AreItems names forms.old items ds → IfOk result (λ r. IsRow names forms.new vars r (case_row span ds)) }
{
    match split(forms, items) {
        None => no_row(forms, span),
        Some((chosen, clauses)) => case_with(forms, span, chosen, clauses),
    }
}

fn case_with(forms: &mut Forms, span: Span, chosen: u32, clauses: u32) -> Result<Row, Memory>
    ensures grown { OnOk result (Grows forms.old forms.new) }
    ensures row { (names : List (List ℕ)) (vars : List Var) (e : Datum) (cs : List Datum) → Held names forms.old chosen e → AreItems names forms.old clauses cs → IfOk result (λ r. IsRow names forms.new vars r (case_row span (e ∷ cs))) }
{
    let keys = keys_of(forms, clauses)?;
    let found = case_clauses(forms, span, keys.as_slice())?;
    case_found(forms, span, chosen, found)
}

fn case_found(forms: &mut Forms, span: Span, chosen: u32, found: Option<u32>) -> Result<Row, Memory>
    ensures grown { OnOk result (Grows forms.old forms.new) }
    ensures row { (names : List (List ℕ)) (vars : List Var) (e : Datum) (cs : List Datum) → Held names forms.old chosen e → IsHeldIf names forms.old found (case_clauses span cs) → IfOk result (λ r. IsRow names forms.new vars r (case_row span (e ∷ cs))) }
{
    match found {
        None => no_row(forms, span),
        Some(form) => rewritten(
            forms,
            span,
            &[chosen, form],
            &[],
            &[
                Piece::Word(Word::Let),
                Piece::Open,
                Piece::Open,
                Piece::Variable(New::Chosen),
                Piece::Given(0),
                Piece::Close,
                Piece::Close,
                Piece::Given(1),
            ],
        ),
    }
}
