//! OBJECT.
ghost use Rattle.std.specs.Prelude.{◌≡◌, ◌≢◌, ◌∷◌, [], ◌++◌, List, ℕ, Option, option_to_list, map, is_some, if◌then◌else◌, AllPairs, IfOk, OnOk};
ghost use Rattle.std.specs.List.{AllZip};
ghost use Rattle.t_base.specs.declared.basics.Var.{Var};
ghost use Rattle.t_forms.specs.declared.arena.Cell.{Cell};
ghost use Rattle.t_forms.specs.Data.{Datum, Binder as SpecBinder, all_of, names};
ghost use Rattle.t_forms.specs.Names.{Meaning, Scope as SpecScope};
ghost use Rattle.t_forms.specs.Held.{Held, IsScope, vars_of};
ghost use Rattle.t_rows.specs.Bindings.{IsBinder, IsAllOf};
ghost use Rattle.t_rows.specs.Given.{IsPart, IsRow};
ghost use Rattle.t_rows.specs.Lists.{Grows, AreHeld, AreItems};
ghost use Rattle.form_rows.specs.Meant.{IsMeantAs};
ghost use Rattle.form_rows.specs.Methods.{IsMethod, IsMethodIf, method_of, fixed_operation, IsObject};
ghost use Rattle.t_rows.specs.declared.refusal.SyntaxKind.TheVariants.{NotOperation};
ghost use Rattle.t_rows.specs.Rows.{Method as SpecMethod, Part as SpecPart, refusal, twice, inside, method_of_head, method_of_items, operation_meant, operation_of, object_node, if_formed, object_row};

use crate::calls::meant;
use crate::definitions::item_names;
use std::alloc::Global;
use t_base::{Keys, Memory, Names, Span};
use t_forms::{Form, Forms, Meant, Scope};
use t_rows::lists::{items_of, keys_of, span_of, split, with_body};
use t_rows::names::{Binder, names_of, twice};
use t_rows::nodes::no_row;
use t_rows::words::body;
use t_rows::{Binds, Part, Refusal, Row, Shape, SyntaxKind};

/// A method: the form of its operation, its parameters, and the form of its body.
#[derive(Drop)]
pub struct Method {
    pub op: u32,
    pub params: Vec<Binder>,
    pub form: u32,
}

/// `((op self x ..) B ..)`, by its head's items
fn method_of_head(
    forms: &mut Forms,
    span: Span,
    head: u32,
    bs: u32,
) -> Result<Option<Method>, Memory>
    ensures grown { OnOk result (Grows forms.old forms.new) }
    ensures made { (names : List (List ℕ)) (hs : List Datum) (b : Datum) (ds : List Datum) → AreItems names forms.old head hs → AreItems names forms.old bs (b ∷ ds) → IfOk result (λ m. IsMethodIf names forms.new m (method_of_head span (b ∷ ds) hs)) }
{
    match with_body(forms, head) {
        None => Ok(None),
        Some((op, items)) => {
            let found = item_names(forms, items)?;
            match found {
                None => Ok(None),
                Some(params) => {
                    let form = body(forms, span, bs)?;
                    Ok(Some(Method { op, params, form }))
                }
            }
        }
    }
}

/// `((op self x ..) B ..)`, by its items
fn method_of_items(forms: &mut Forms, span: Span, items: u32) -> Result<Option<Method>, Memory>
    ensures grown { OnOk result (Grows forms.old forms.new) }
    ensures made { (names : List (List ℕ)) (ds : List Datum) → AreItems names forms.old items ds → IfOk result (λ m. IsMethodIf names forms.new m (method_of_items span ds)) }
{
    match with_body(forms, items) {
        None => Ok(None),
        Some((head, bs)) => match items_of(forms, head) {
            None => Ok(None),
            Some(listed) => method_of_head(forms, span, listed, bs),
        },
    }
}

/// `((op self x ..) B ..)`
fn method_of(forms: &mut Forms, span: Span, key: u32) -> Result<Option<Method>, Memory>
    ensures grown { OnOk result (Grows forms.old forms.new) }
    ensures made { (names : List (List ℕ)) (d : Datum) → Held names forms.old key d → IfOk result (λ m. IsMethodIf names forms.new m (method_of span d)) }
{
    match items_of(forms, key) {
        None => Ok(None),
        Some(items) => method_of_items(forms, span, items),
    }
}

fn all_methods(forms: &mut Forms, span: Span, keys: &[u32]) -> Result<Option<Vec<Method>>, Memory>
    ensures grown { OnOk result (Grows forms.old forms.new) }
    ensures made { (names : List (List ℕ)) (ds : List Datum) → AreHeld names forms.old keys.now ds → IfOk result (λ r. IsAllOf (IsMethod names forms.new) r (all_of (map (method_of span) ds))) }
{
    let mut methods = Vec::new(forms.alloc());
    'keys: for key in keys {
        let found = method_of(forms, span, *key)?;
        match found {
            Some(method) => methods.push(method)?,
            None => return Ok(None),
        }
    }
    Ok(Some(methods))
}

fn fixed_operation(forms: &Forms, key: u32) -> Option<u32>
    ensures { (names : List (List ℕ)) (d : Datum) → Held names forms.now key d → result ≡ fixed_operation d }
{
    match forms.get(key) {
        Some(cell) => match &cell.form {
            Form::Operation(o) => Some(*o),
            _ => None,
        },
        None => None,
    }
}

fn operation_meant(meant: Option<Meant>) -> Option<u32>
    ensures { (vars : List Var) (m : Option Meaning) → IsMeantAs vars meant m → result ≡ operation_meant m }
{
    match meant {
        Some(Meant::Operation(o)) => Some(o),
        Some(Meant::BuiltinOperation(o)) => Some(o),
        Some(Meant::Local(_)) => None,
        Some(Meant::Global { .. }) => None,
        Some(Meant::Builtin(_)) => None,
        Some(Meant::Truth) => None,
        Some(Meant::Listing) => None,
        Some(Meant::Nothing) => None,
        None => None,
    }
}

/// The operation that the op of a method is.
fn operation_of(forms: &Forms, names: &Names, scope: &Scope, key: u32) -> Option<u32>
    ensures { (d : Datum) (around : SpecScope) → AllPairs (λ a b. a ≢ b) names.now → Held names.now forms.now key d → IsScope names.now scope.now around → result ≡ operation_of around d }
{
    match fixed_operation(forms, key) {
        Some(o) => Some(o),
        None => operation_meant(meant(forms, names, scope, key)),
    }
}

/// What an object is made of so far.
#[derive(Drop)]
struct Object {
    ops: Vec<u32>,
    refusals: Vec<Refusal>,
    parts: Vec<Part>,
}

/// The operation of a method, or its refusal.
fn add_operation(object: &mut Object, at: Span, operation: Option<u32>) -> Result<(), Memory>
    ensures ops { OnOk result (object.new.ops.items ≡ object.old.ops.items ++ option_to_list operation) }
    ensures refusals { OnOk result (object.new.refusals.items ≡ object.old.refusals.items ++ (if is_some operation then [] else refusal NotOperation at ∷ [])) }
    ensures parts { OnOk result (object.new.parts.items ≡ object.old.parts.items) }
{
    match operation {
        Some(o) => {
            object.ops.push(o)?;
            Ok(())
        }
        None => {
            object.refusals.push(Refusal {
                kind: SyntaxKind::NotOperation,
                span: at,
            })?;
            Ok(())
        }
    }
}

/// The refusals of names that stand twice among a method's parameters, and its body inside them.
fn add_body(alloc: Global, object: &mut Object, params: &[Binder], form: u32) -> Result<(), Memory>
    ensures ops { OnOk result (object.new.ops.items ≡ object.old.ops.items) }
    ensures refusals { (texts : List (List ℕ)) (ps : List SpecBinder) → AllPairs (λ a b. a ≢ b) texts → AllZip (IsBinder texts) params.now ps → OnOk result (object.new.refusals.items ≡ object.old.refusals.items ++ twice ps) }
    ensures parts { (texts : List (List ℕ)) (cells : List Cell) (ps : List SpecBinder) (ds : List SpecPart) (d : Datum) → AllZip (IsBinder texts) params.now ps → AllZip (IsPart texts cells) object.old.parts.items ds → Held texts cells form d → OnOk result (AllZip (IsPart texts cells) object.new.parts.items (ds ++ inside (names ps) d ∷ [])) }
{
    let refusals = twice(alloc, params)?;
    let binds = names_of(alloc, params)?;
    object.refusals.extend_from_slice(refusals.as_slice())?;
    object.parts.push(Part {
        binds: Binds::Names(binds),
        form,
    })?;
    Ok(())
}

/// A method.
fn add_method(
    forms: &Forms,
    names: &Names,
    scope: &Scope,
    object: &mut Object,
    method: &Method,
) -> Result<(), Memory>
    ensures { (around : SpecScope) (m : SpecMethod) (ms : List SpecMethod) (p : Datum) → AllPairs (λ a b. a ≢ b) names.now → IsScope names.now scope.now around → IsMethod names.now forms.now method.now m → IsObject names.now forms.now around p object.old.ops.items object.old.refusals.items object.old.parts.items ms → OnOk result (IsObject names.now forms.now around p object.new.ops.items object.new.refusals.items object.new.parts.items (ms ++ m ∷ [])) }
{
    let operation = operation_of(forms, names, scope, method.op);
    add_operation(object, span_of(forms, method.op), operation)?;
    add_body(forms.alloc(), object, method.params.as_slice(), method.form)?;
    Ok(())
}

/// The procedure part of an object, and no methods.
fn no_methods(forms: &Forms, procedure: u32) -> Result<Object, Memory>
    ensures { (names : List (List ℕ)) (around : SpecScope) (p : Datum) → Held names forms.now procedure p → IfOk result (λ o. IsObject names forms.now around p o.ops.items o.refusals.items o.parts.items []) }
{
    let mut parts = Vec::new(forms.alloc());
    parts.push(Part {
        binds: Binds::Names(Vec::new(forms.alloc())),
        form: procedure,
    })?;
    Ok(Object {
        ops: Vec::new(forms.alloc()),
        refusals: Vec::new(forms.alloc()),
        parts,
    })
}

fn with_methods(
    forms: &Forms,
    names: &Names,
    scope: &Scope,
    procedure: u32,
    methods: &[Method],
) -> Result<Object, Memory>
    ensures { (around : SpecScope) (p : Datum) (ms : List SpecMethod) → AllPairs (λ a b. a ≢ b) names.now → IsScope names.now scope.now around → Held names.now forms.now procedure p → AllZip (IsMethod names.now forms.now) methods.now ms → IfOk result (λ o. IsObject names.now forms.now around p o.ops.items o.refusals.items o.parts.items ms) }
{
    let mut object = no_methods(forms, procedure)?;
    'methods: for method in methods {
        add_method(forms, names, scope, &mut object, method)?;
    }
    Ok(object)
}

fn object_node(
    forms: &Forms,
    names: &Names,
    scope: &Scope,
    procedure: u32,
    methods: &[Method],
) -> Result<Row, Memory>
    ensures { (around : SpecScope) (p : Datum) (ms : List SpecMethod) → AllPairs (λ a b. a ≢ b) names.now → IsScope names.now scope.now around → Held names.now forms.now procedure p → AllZip (IsMethod names.now forms.now) methods.now ms → IfOk result (λ r. IsRow names.now forms.now (vars_of scope.now) r (object_node around p ms)) }
{
    let object = with_methods(forms, names, scope, procedure, methods)?;
    let Object {
        ops,
        refusals,
        parts,
    } = object;
    Ok(Row::Node {
        shape: Shape::Object(Keys::from_vec(ops)),
        refusals,
        parts,
    })
}

fn object_found(
    forms: &mut Forms,
    names: &Names,
    scope: &Scope,
    span: Span,
    procedure: u32,
    found: Option<Vec<Method>>,
) -> Result<Row, Memory>
    ensures grown { OnOk result (Grows forms.old forms.new) }
    ensures row { (around : SpecScope) (p : Datum) (o : Option (List SpecMethod)) → AllPairs (λ a b. a ≢ b) names.now → IsScope names.now scope.now around → Held names.now forms.old procedure p → IsAllOf (IsMethod names.now forms.old) found o → IfOk result (λ r. IsRow names.now forms.new (vars_of scope.now) r (if_formed span (object_node around p) o)) }
{
    match found {
        None => no_row(forms, span),
        Some(methods) => {
            let row = object_node(forms, names, scope, procedure, methods.as_slice())?;
            Ok(row)
        }
    }
}

/// OBJECT by its procedure part and methods.
fn object_with(
    forms: &mut Forms,
    names: &Names,
    scope: &Scope,
    span: Span,
    procedure: u32,
    items: u32,
) -> Result<Row, Memory>
    ensures grown { OnOk result (Grows forms.old forms.new) }
    ensures row { (around : SpecScope) (p : Datum) (ms : List Datum) → AllPairs (λ a b. a ≢ b) names.now → IsScope names.now scope.now around → Held names.now forms.old procedure p → AreItems names.now forms.old items ms → IfOk result (λ r. IsRow names.now forms.new (vars_of scope.now) r (object_row around span (p ∷ ms))) }
{
    let keys = keys_of(forms, items)?;
    let found = all_methods(forms, span, keys.as_slice())?;
    let row = object_found(forms, names, scope, span, procedure, found)?;
    Ok(row)
}

/// `(object p ((op self x ..) B ..) ..)`
pub fn object_row(
    forms: &mut Forms,
    names: &Names,
    scope: &Scope,
    span: Span,
    items: u32,
) -> Result<Row, Memory>
    ensures grown { OnOk result (Grows forms.old forms.new) }
    ensures row { (around : SpecScope) (ds : List Datum) → AllPairs (λ a b. a ≢ b) names.now → AreItems names.now forms.old items ds → IsScope names.now scope.now around → IfOk result (λ r. IsRow names.now forms.new (vars_of scope.now) r (object_row around span ds)) }
{
    match split(forms, items) {
        None => no_row(forms, span),
        Some((procedure, methods)) => object_with(forms, names, scope, span, procedure, methods),
    }
}
