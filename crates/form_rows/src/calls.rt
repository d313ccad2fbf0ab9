//! Calls, and calls of builtins.
ghost use Rattle.std.specs.Prelude.{◌≡◌, ◌≢◌, pos, List, ℕ, Option, AllPairs, IfOk, OnOk};
ghost use Rattle.t_base.specs.declared.basics.Var.{Var};
ghost use Rattle.t_forms.specs.Data.{Datum, Name};
ghost use Rattle.t_forms.specs.Names.{Meaning, Scope as SpecScope, meaning};
ghost use Rattle.t_forms.specs.Held.{Held, IsName, IsScope, vars_of};
ghost use Rattle.t_rows.specs.Given.{IsRow};
ghost use Rattle.t_rows.specs.Lists.{Grows, AreItems};
ghost use Rattle.form_rows.specs.Meant.{MeansAs, IsMeantAs, IsOperator, IsOperatorMeant, fixed_operator};
ghost use Rattle.t_rows.specs.Rows.{call_node, fold_row, builtin_row, minus_row, builtin_call, list_row, call_row, meant};

use t_base::{Memory, Names, Prim, Span};
use t_forms::{Form, Forms, LocalName, Meant, Scope};
use t_prim::arity;
use t_rows::lists::{count_of, keys_of, name_of, split};
use t_rows::making::made;
use t_rows::nodes::{plain_node, rewritten, stands_for_atom};
use t_rows::templates::{Piece, written};
use t_rows::{Row, Shape};

/// What an operator is.
#[derive(Clone, Copy)]
pub enum Operator {
    Builtin(Prim),
    Listing,
    Other,
}

/// What a name means.
pub fn meaning_of(names: &Names, scope: &Scope, name: LocalName) -> Meant
    ensures { (n : Name) (around : SpecScope) → AllPairs (λ a b. a ≢ b) names.now → IsName names.now name n → IsScope names.now scope.now around → MeansAs (vars_of scope.now) result (meaning around n) }
{
    scope.meaning(names, name)
}

/// What a form means as a name.
pub fn meant(forms: &Forms, names: &Names, scope: &Scope, key: u32) -> Option<Meant>
    ensures { (d : Datum) (around : SpecScope) → AllPairs (λ a b. a ≢ b) names.now → Held names.now forms.now key d → IsScope names.now scope.now around → IsMeantAs (vars_of scope.now) result (meant around d) }
{
    match name_of(forms, key) {
        Some(name) => Some(meaning_of(names, scope, name)),
        None => None,
    }
}

fn fixed_operator(forms: &Forms, key: u32) -> Option<Operator>
    ensures { (names : List (List ℕ)) (d : Datum) → Held names forms.now key d → result ≡ fixed_operator d }
{
    match forms.get(key) {
        Some(cell) => match &cell.form {
            Form::Builtin(p) => Some(Operator::Builtin(*p)),
            Form::Listing => Some(Operator::Listing),
            _ => None,
        },
        None => None,
    }
}

fn operator_meant(meant: Option<Meant>) -> Operator
    ensures { (vars : List Var) (m : Option Meaning) → IsMeantAs vars meant m → IsOperatorMeant result m }
{
    match meant {
        Some(Meant::Builtin(p)) => Operator::Builtin(p),
        Some(Meant::Listing) => Operator::Listing,
        Some(_) => Operator::Other,
        None => Operator::Other,
    }
}

fn operator_of(forms: &Forms, names: &Names, scope: &Scope, key: u32) -> Operator
    ensures { (f : Datum) (around : SpecScope) → AllPairs (λ a b. a ≢ b) names.now → Held names.now forms.now key f → IsScope names.now scope.now around → IsOperator around result f }
{
    match fixed_operator(forms, key) {
        Some(operator) => operator,
        None => operator_meant(meant(forms, names, scope, key)),
    }
}

/// `(f a ..)`, called as a value
pub fn call_node(forms: &mut Forms, operator: u32, items: u32) -> Result<Row, Memory>
    ensures grown { OnOk result (Grows forms.old forms.new) }
    ensures row { (names : List (List ℕ)) (vars : List Var) (f : Datum) (ds : List Datum) → Held names forms.old operator f → AreItems names forms.old items ds → IfOk result (λ r. IsRow names forms.new vars r (call_node f ds)) }
{
    let operands = keys_of(forms, items)?;
    let mut keys = Vec::new(forms.alloc());
    keys.push(operator)?;
    keys.extend_from_slice(operands.as_slice())?;
    plain_node(forms, Shape::Call, keys.as_slice())
}

fn fixnum(n: u8) -> Form
    ensures { result ≡ Form.Fix (pos n) }
{
    Form::Fix(i32::from(n))
}

/// `(p)`, `(p a)`, `(p a b)`, `(p a b c ..)` of `+` and `*`, whose answer without operands is given.
fn fold_row(forms: &mut Forms, span: Span, p: Prim, unit: u8, items: u32) -> Result<Row, Memory>
    ensures grown { OnOk result (Grows forms.old forms.new) }
    ensures row { (names : List (List ℕ)) (vars : List Var) (ds : List Datum) → AreItems names forms.old items ds → IfOk result (λ r. IsRow names forms.new vars r (fold_row span p unit ds)) }
{
    match split(forms, items) {
        None => stands_for_atom(forms, span, fixnum(unit)),
        Some((a, behind)) => match split(forms, behind) {
            None => {
                let number = made(forms, span, fixnum(unit))?;
                plain_node(forms, Shape::Primitive(p), &[number, a])
            }
            Some((b, others)) => match split(forms, others) {
                None => plain_node(forms, Shape::Primitive(p), &[a, b]),
                Some(_) => rewritten(
                    forms,
                    span,
                    &[a, b],
                    &[others],
                    &[
                        Piece::Builtin(p),
                        Piece::Open,
                        Piece::Builtin(p),
                        Piece::Given(0),
                        Piece::Given(1),
                        Piece::Close,
                        Piece::Rest(0),
                    ],
                ),
            },
        },
    }
}

/// `(p a ..)` with as many operands as the builtin takes, or with another count
fn builtin_row(forms: &mut Forms, operator: u32, p: Prim, items: u32) -> Result<Row, Memory>
    ensures grown { OnOk result (Grows forms.old forms.new) }
    ensures row { (names : List (List ℕ)) (vars : List Var) (f : Datum) (ds : List Datum) → Held names forms.old operator f → AreItems names forms.old items ds → IfOk result (λ r. IsRow names forms.new vars r (builtin_row f p ds)) }
{
    let count = count_of(forms, items)?;
    if count == u32::from(arity(p)) {
        let keys = keys_of(forms, items)?;
        plain_node(forms, Shape::Primitive(p), keys.as_slice())
    } else {
        call_node(forms, operator, items)
    }
}

/// `(- a)`, `(- a b)`
fn minus_row(forms: &mut Forms, span: Span, operator: u32, items: u32) -> Result<Row, Memory>
    ensures grown { OnOk result (Grows forms.old forms.new) }
    ensures row { (names : List (List ℕ)) (vars : List Var) (f : Datum) (ds : List Datum) → Held names forms.old operator f → AreItems names forms.old items ds → IfOk result (λ r. IsRow names forms.new vars r (minus_row span f ds)) }
{
    match split(forms, items) {
        None => builtin_row(forms, operator, Prim::Sub, items),
        Some((a, behind)) => match split(forms, behind) {
            None => {
                let zero = made(forms, span, Form::Fix(0))?;
                plain_node(forms, Shape::Primitive(Prim::Sub), &[zero, a])
            }
            Some(_) => builtin_row(forms, operator, Prim::Sub, items),
        },
    }
}

/// `(p a ..)`
fn builtin_call(
    forms: &mut Forms,
    span: Span,
    operator: u32,
    p: Prim,
    items: u32,
) -> Result<Row, Memory>
    ensures grown { OnOk result (Grows forms.old forms.new) }
    ensures row { (names : List (List ℕ)) (vars : List Var) (f : Datum) (ds : List Datum) → Held names forms.old operator f → AreItems names forms.old items ds → IfOk result (λ r. IsRow names forms.new vars r (builtin_call span f ds p)) }
{
    match p {
        Prim::Add => fold_row(forms, span, p, 0, items),
        Prim::Mul => fold_row(forms, span, p, 1, items),
        Prim::Sub => minus_row(forms, span, operator, items),
        _ => builtin_row(forms, operator, p, items),
    }
}

/// `(list)`, `(list a b ..)`
fn list_row(forms: &mut Forms, span: Span, items: u32) -> Result<Row, Memory>
    ensures grown { OnOk result (Grows forms.old forms.new) }
    ensures row { (names : List (List ℕ)) (vars : List Var) (ds : List Datum) → AreItems names forms.old items ds → IfOk result (λ r. IsRow names forms.new vars r (list_row span ds)) }
{
    match split(forms, items) {
        None => stands_for_atom(forms, span, Form::Nil),
        Some((a, others)) => {
            let rest = written(
                forms,
                span,
                &[],
                &[others],
                &[Piece::Listing, Piece::Rest(0)],
            )?;
            plain_node(forms, Shape::Primitive(Prim::Cons), &[a, rest])
        }
    }
}

/// A call.
pub fn call_row(
    forms: &mut Forms,
    names: &Names,
    scope: &Scope,
    span: Span,
    operator: u32,
    items: u32,
) -> Result<Row, Memory>
    ensures grown { OnOk result (Grows forms.old forms.new) }
    ensures row { (around : SpecScope) (f : Datum) (ds : List Datum) → AllPairs (λ a b. a ≢ b) names.now → Held names.now forms.old operator f → AreItems names.now forms.old items ds → IsScope names.now scope.now around → IfOk result (λ r. IsRow names.now forms.new (vars_of scope.now) r (call_row around span f ds)) }
{
    match operator_of(forms, names, scope, operator) {
        Operator::Builtin(p) => builtin_call(forms, span, operator, p, items),
        Operator::Listing => list_row(forms, span, items),
        Operator::Other => call_node(forms, operator, items),
    }
}
