//! SET.
ghost use Rattle.std.specs.Prelude.{◌≡◌, ◌==◌, ◌+◌, ◌≢◌, ◌∷◌, [], ◌++◌, List, ℕ, Option, map, AllPairs, IfOk, OnOk};
ghost use Rattle.t_base.specs.declared.basics.Var.{Var};
ghost use Rattle.t_prim.specs.Table.{arity_of};
ghost use Rattle.t_forms.specs.Data.{Datum, items_of};
ghost use Rattle.t_forms.specs.Names.{Meaning, Scope as SpecScope};
ghost use Rattle.t_forms.specs.Held.{Held, IsScope, vars_of};
ghost use Rattle.t_rows.specs.Given.{IsRow};
ghost use Rattle.t_rows.specs.Lists.{Grows, AreHeld, AreItems};
ghost use Rattle.form_rows.specs.Meant.{MeansAs, IsMeantAs};
ghost use Rattle.t_rows.specs.Rows.{node, nothing, refusal, plain, assigns, not_settable, set_name, set_through, set_builtin, set_operation, set_call, set_items, set_place, set_row};

use crate::calls::meant;
use t_base::{Memory, Names, Prim, Span};
use t_forms::{Forms, Meant, Scope};
use t_prim::arity;
use t_rows::lists::{Few, count_of, few_items, is_pair, items_of, span_of, split};
use t_rows::making::{items_of_keys, keys_and_last};
use t_rows::nodes::{no_row, plain_node, plain_parts, rewritten};
use t_rows::templates::Piece;
use t_rows::{Refusal, Row, Shape, SyntaxKind};

/// A rule is broken, and more is looked for inside these parts.
fn refused_node(
    forms: &mut Forms,
    kind: SyntaxKind,
    span: Span,
    keys: &[u32],
) -> Result<Row, Memory>
    ensures grown { OnOk result (Grows forms.old forms.new) }
    ensures row { (names : List (List ℕ)) (vars : List Var) (ds : List Datum) → AreHeld names forms.old keys.now ds → IfOk result (λ r. IsRow names forms.new vars r (node nothing (refusal kind span ∷ []) (map plain ds))) }
{
    let parts = plain_parts(forms, keys)?;
    let mut refusals = Vec::new(forms.alloc());
    refusals.push(Refusal { kind, span })?;
    Ok(Row::Node {
        shape: Shape::Nothing,
        refusals,
        parts,
    })
}

/// `(set x e)`, where `x` is at the span.
fn set_name(forms: &mut Forms, at: Span, meant: Meant, value: u32) -> Result<Row, Memory>
    ensures grown { OnOk result (Grows forms.old forms.new) }
    ensures row { (names : List (List ℕ)) (vars : List Var) (m : Meaning) (e : Datum) → MeansAs vars meant m → Held names forms.old value e → IfOk result (λ r. IsRow names forms.new vars r (set_name at e m)) }
{
    match meant {
        Meant::Local(var) => plain_node(forms, Shape::SetLocal(var), &[value]),
        Meant::Global { place, assigned } => {
            if assigned {
                plain_node(forms, Shape::SetGlobal(place), &[value])
            } else {
                refused_node(forms, SyntaxKind::ConstantSet, at, &[value])
            }
        }
        Meant::Nothing => refused_node(forms, SyntaxKind::FreeName, at, &[value]),
        Meant::Operation(_) => refused_node(forms, SyntaxKind::ConstantSet, at, &[value]),
        Meant::Builtin(_) => refused_node(forms, SyntaxKind::ConstantSet, at, &[value]),
        Meant::BuiltinOperation(_) => refused_node(forms, SyntaxKind::ConstantSet, at, &[value]),
        Meant::Truth => refused_node(forms, SyntaxKind::ConstantSet, at, &[value]),
        Meant::Listing => refused_node(forms, SyntaxKind::ConstantSet, at, &[value]),
    }
}

/// `((setter a) e .. v)`
fn set_through(
    forms: &mut Forms,
    span: Span,
    operator: u32,
    items: u32,
    value: u32,
) -> Result<Row, Memory>
    ensures grown { OnOk result (Grows forms.old forms.new) }
    ensures row { (names : List (List ℕ)) (vars : List Var) (a : Datum) (es : List Datum) (v : Datum) → Held names forms.old operator a → AreItems names forms.old items es → Held names forms.old value v → IfOk result (λ r. IsRow names forms.new vars r (set_through span a es v)) }
{
    let keys = keys_and_last(forms, items, value)?;
    let operands = items_of_keys(forms, span, keys.as_slice())?;
    rewritten(
        forms,
        span,
        &[operator],
        &[operands],
        &[
            Piece::Open,
            Piece::Operation(0),
            Piece::Given(0),
            Piece::Close,
            Piece::Rest(0),
        ],
    )
}

/// The name of a builtin that reads no place.
fn not_settable(forms: &mut Forms, operator: u32, items: u32, value: u32) -> Result<Row, Memory>
    ensures grown { OnOk result (Grows forms.old forms.new) }
    ensures row { (names : List (List ℕ)) (vars : List Var) (a : Datum) (es : List Datum) (v : Datum) → Held names forms.old operator a → AreItems names forms.old items es → Held names forms.old value v → IfOk result (λ r. IsRow names forms.new vars r (not_settable a es v)) }
{
    let at = span_of(forms, operator);
    let keys = keys_and_last(forms, items, value)?;
    refused_node(forms, SyntaxKind::NotSettable, at, keys.as_slice())
}

/// The builtin that assigns the place which this one reads.
fn assigns(p: Prim) -> Option<Prim>
    ensures { result ≡ assigns p }
{
    match p {
        Prim::Car => Some(Prim::SetCar),
        Prim::Cdr => Some(Prim::SetCdr),
        Prim::Vref => Some(Prim::SetVref),
        _ => None,
    }
}

fn takes_one_more(p: Prim, count: u32) -> bool
    ensures { result ≡ (count + 1 == arity_of p) }
{
    u64::from(count) + 1 == u64::from(arity(p))
}

/// `(set (p e ..) v)` of a builtin
fn set_builtin(
    forms: &mut Forms,
    span: Span,
    operator: u32,
    items: u32,
    value: u32,
    assigning: Option<Prim>,
) -> Result<Row, Memory>
    ensures grown { OnOk result (Grows forms.old forms.new) }
    ensures row { (names : List (List ℕ)) (vars : List Var) (a : Datum) (es : List Datum) (v : Datum) → Held names forms.old operator a → AreItems names forms.old items es → Held names forms.old value v → IfOk result (λ r. IsRow names forms.new vars r (set_builtin span a es v assigning)) }
{
    match assigning {
        None => not_settable(forms, operator, items, value),
        Some(p) => {
            let count = count_of(forms, items)?;
            let exact = takes_one_more(p, count);
            if exact {
                let keys = keys_and_last(forms, items, value)?;
                plain_node(forms, Shape::Primitive(p), keys.as_slice())
            } else {
                set_through(forms, span, operator, items, value)
            }
        }
    }
}

/// `(set (contents l) e)` and its like with another operation
fn set_operation(
    forms: &mut Forms,
    span: Span,
    operator: u32,
    items: u32,
    value: u32,
    operation: u32,
) -> Result<Row, Memory>
    ensures grown { OnOk result (Grows forms.old forms.new) }
    ensures row { (names : List (List ℕ)) (vars : List Var) (a : Datum) (es : List Datum) (v : Datum) → Held names forms.old operator a → AreItems names forms.old items es → Held names forms.old value v → IfOk result (λ r. IsRow names forms.new vars r (set_operation span a es v operation)) }
{
    if operation == 1 {
        let count = count_of(forms, items)?;
        if count == 1 {
            let keys = keys_and_last(forms, items, value)?;
            let operands = items_of_keys(forms, span, keys.as_slice())?;
            rewritten(
                forms,
                span,
                &[],
                &[operands],
                &[Piece::Operation(2), Piece::Rest(0)],
            )
        } else {
            set_through(forms, span, operator, items, value)
        }
    } else {
        not_settable(forms, operator, items, value)
    }
}

/// `(set (a e ..) v)`, where `a` is a name that means this
fn set_meant(
    forms: &mut Forms,
    span: Span,
    operator: u32,
    items: u32,
    value: u32,
    meant: Meant,
) -> Result<Row, Memory>
    ensures grown { OnOk result (Grows forms.old forms.new) }
    ensures row { (names : List (List ℕ)) (vars : List Var) (a : Datum) (es : List Datum) (v : Datum) (m : Meaning) → Held names forms.old operator a → AreItems names forms.old items es → Held names forms.old value v → MeansAs vars meant m → IfOk result (λ r. IsRow names forms.new vars r (set_call span a es v (Some m))) }
{
    match meant {
        Meant::Builtin(p) => set_builtin(forms, span, operator, items, value, assigns(p)),
        Meant::BuiltinOperation(o) => set_operation(forms, span, operator, items, value, o),
        Meant::Listing => not_settable(forms, operator, items, value),
        Meant::Local(_) => set_through(forms, span, operator, items, value),
        Meant::Global { .. } => set_through(forms, span, operator, items, value),
        Meant::Operation(_) => set_through(forms, span, operator, items, value),
        Meant::Truth => set_through(forms, span, operator, items, value),
        Meant::Nothing => set_through(forms, span, operator, items, value),
    }
}

/// `(set (a e ..) v)`, by what `a` means
fn set_call(
    forms: &mut Forms,
    span: Span,
    operator: u32,
    items: u32,
    value: u32,
    meant: Option<Meant>,
) -> Result<Row, Memory>
    ensures grown { OnOk result (Grows forms.old forms.new) }
    ensures row { (names : List (List ℕ)) (vars : List Var) (a : Datum) (es : List Datum) (v : Datum) (m : Option Meaning) → Held names forms.old operator a → AreItems names forms.old items es → Held names forms.old value v → IsMeantAs vars meant m → IfOk result (λ r. IsRow names forms.new vars r (set_call span a es v m)) }
{
    match meant {
        None => set_through(forms, span, operator, items, value),
        Some(meant) => set_meant(forms, span, operator, items, value, meant),
    }
}

/// `(set (a e ..) v)`
fn set_items(
    forms: &mut Forms,
    names: &Names,
    scope: &Scope,
    span: Span,
    place: u32,
    value: u32,
) -> Result<Row, Memory>
    ensures grown { OnOk result (Grows forms.old forms.new) }
    ensures row { (around : SpecScope) (d : Datum) (v : Datum) → AllPairs (λ a b. a ≢ b) names.now → Held names.now forms.old place d → Held names.now forms.old value v → IsScope names.now scope.now around → IfOk result (λ r. IsRow names.now forms.new (vars_of scope.now) r (set_items around span v (items_of d))) }
{
    match items_of(forms, place) {
        None => no_row(forms, span),
        Some(list) => match split(forms, list) {
            None => no_row(forms, span),
            Some((operator, items)) => {
                let meant = meant(forms, names, scope, operator);
                set_call(forms, span, operator, items, value, meant)
            }
        },
    }
}

/// The place of a SET, with its value.
fn set_place(
    forms: &mut Forms,
    names: &Names,
    scope: &Scope,
    span: Span,
    place: u32,
    value: u32,
) -> Result<Row, Memory>
    ensures grown { OnOk result (Grows forms.old forms.new) }
    ensures row { (around : SpecScope) (d : Datum) (v : Datum) → AllPairs (λ a b. a ≢ b) names.now → Held names.now forms.old place d → Held names.now forms.old value v → IsScope names.now scope.now around → IfOk result (λ r. IsRow names.now forms.new (vars_of scope.now) r (set_place around span d v)) }
{
    if is_pair(forms, place) {
        set_items(forms, names, scope, span, place, value)
    } else {
        match meant(forms, names, scope, place) {
            None => no_row(forms, span),
            Some(meant) => {
                let at = span_of(forms, place);
                set_name(forms, at, meant, value)
            }
        }
    }
}

/// `(set x e)`, `(set (a e ..) v)`
pub fn set_row(
    forms: &mut Forms,
    names: &Names,
    scope: &Scope,
    span: Span,
    items: u32,
) -> Result<Row, Memory>
    ensures grown { OnOk result (Grows forms.old forms.new) }
    ensures row { (around : SpecScope) (ds : List Datum) → AllPairs (λ a b. a ≢ b) names.now → AreItems names.now forms.old items ds → IsScope names.now scope.now around → IfOk result (λ r. IsRow names.now forms.new (vars_of scope.now) r (set_row around span ds)) }
{
    match few_items(forms, items) {
        Few::Two(place, value) => set_place(forms, names, scope, span, place, value),
        Few::Zero => no_row(forms, span),
        Few::One(_) => no_row(forms, span),
        Few::Three(_, _, _) => no_row(forms, span),
        Few::More => no_row(forms, span),
    }
}
