//! LABELS.
ghost use Rattle.std.specs.Prelude.{◌≡◌, ◌≢◌, ◌∷◌, [], List, ℕ, Option, map, AllPairs, IfOk, OnOk};
ghost use Rattle.std.specs.List.{AllZip};
ghost use Rattle.t_base.specs.declared.basics.Var.{Var};
ghost use Rattle.t_forms.specs.declared.arena.Cell.{Cell};
ghost use Rattle.t_forms.specs.Data.{Datum, Name, Binder as SpecBinder, all_of, names};
ghost use Rattle.t_forms.specs.Held.{Held};
ghost use Rattle.t_rows.specs.Bindings.{IsBinder, IsAllOf};
ghost use Rattle.t_rows.specs.Given.{AreBinds, AreParts, IsRow};
ghost use Rattle.t_rows.specs.Lists.{Grows, AreHeld, AreItems};
ghost use Rattle.binding_rows.specs.Procedures.{IsProcedure, IsProcedureIf, labels_item_of};
ghost use Rattle.t_rows.specs.Rows.{Binding as SpecBinding, binders, inside, if_formed, is_lambda_word, lambda_item, procedure_item, labels_item, labels_node, labels_row};

use std::alloc::Global;
use t_base::{Memory, Names, Span};
use t_forms::Forms;
use t_objects::Word;
use t_rows::lists::{
    Few, few_items, head_of, is_pair, items_of, keys_of, split, with_body, word_of,
};
use t_rows::names::{Binder, binder_of, names_of, twice};
use t_rows::nodes::no_row;
use t_rows::words::{body, lambda_form};
use t_rows::{Binds, Part, Row, Shape};

/// A procedure of LABELS: its name, and the form of its LAMBDA.
#[derive(Clone, Copy)]
pub struct Procedure {
    pub name: Binder,
    pub value: u32,
}

fn is_lambda(forms: &Forms, key: u32) -> bool
    ensures { (names : List (List ℕ)) (d : Datum) → Held names forms.now key d → result ≡ is_lambda_word d }
{
    match word_of(forms, key) {
        Some(Word::Lambda) => true,
        Some(_) => false,
        None => false,
    }
}

/// `(f (lambda ..))`
fn lambda_item(forms: &Forms, name: u32, items: u32) -> Option<Procedure>
    ensures { (names : List (List ℕ)) (f : Datum) (ds : List Datum) → Held names forms.now name f → AreItems names forms.now items ds → IsProcedureIf names forms.now result (lambda_item f ds) }
{
    match few_items(forms, items) {
        Few::One(value) => match head_of(forms, value) {
            None => None,
            Some(head) => {
                if is_lambda(forms, head) {
                    match binder_of(forms, name) {
                        None => None,
                        Some(name) => Some(Procedure { name, value }),
                    }
                } else {
                    None
                }
            }
        },
        Few::Zero => None,
        Few::Two(_, _) => None,
        Few::Three(_, _, _) => None,
        Few::More => None,
    }
}

/// `((f x ..) B ..)`, by its head's items
fn procedure_item(
    forms: &mut Forms,
    span: Span,
    head: u32,
    items: u32,
) -> Result<Option<Procedure>, Memory>
    ensures grown { OnOk result (Grows forms.old forms.new) }
    ensures made { (names : List (List ℕ)) (fs : List Datum) (bs : List Datum) → AreItems names forms.old head fs → AreItems names forms.old items bs → IfOk result (λ p. IsProcedureIf names forms.new p (procedure_item span bs fs)) }
{
    match split(forms, head) {
        None => Ok(None),
        Some((name, params)) => match binder_of(forms, name) {
            None => Ok(None),
            Some(name) => {
                let value = lambda_form(forms, span, params, items)?;
                Ok(Some(Procedure { name, value }))
            }
        },
    }
}

/// An item of LABELS, by its items
fn labels_item(forms: &mut Forms, span: Span, items: u32) -> Result<Option<Procedure>, Memory>
    ensures grown { OnOk result (Grows forms.old forms.new) }
    ensures made { (names : List (List ℕ)) (ds : List Datum) → AreItems names forms.old items ds → IfOk result (λ p. IsProcedureIf names forms.new p (labels_item span ds)) }
{
    match split(forms, items) {
        None => Ok(None),
        Some((first, behind)) => {
            if is_pair(forms, first) {
                match items_of(forms, first) {
                    None => Ok(None),
                    Some(head) => procedure_item(forms, span, head, behind),
                }
            } else {
                Ok(lambda_item(forms, first, behind))
            }
        }
    }
}

/// An item of LABELS
fn labels_item_of(forms: &mut Forms, span: Span, key: u32) -> Result<Option<Procedure>, Memory>
    ensures grown { OnOk result (Grows forms.old forms.new) }
    ensures made { (names : List (List ℕ)) (d : Datum) → Held names forms.old key d → IfOk result (λ p. IsProcedureIf names forms.new p (labels_item_of span d)) }
{
    match items_of(forms, key) {
        None => Ok(None),
        Some(items) => labels_item(forms, span, items),
    }
}

fn all_items(forms: &mut Forms, span: Span, keys: &[u32]) -> Result<Option<Vec<Procedure>>, Memory>
    ensures grown { OnOk result (Grows forms.old forms.new) }
    ensures made { (names : List (List ℕ)) (ds : List Datum) → AreHeld names forms.old keys.now ds → IfOk result (λ r. IsAllOf (IsProcedure names forms.new) r (all_of (map (labels_item_of span) ds))) }
{
    let mut procedures = Vec::new(forms.alloc());
    'keys: for key in keys {
        let found = labels_item_of(forms, span, *key)?;
        match found {
            Some(procedure) => procedures.push(procedure)?,
            None => return Ok(None),
        }
    }
    Ok(Some(procedures))
}

/// The names that procedures bind.
fn bound_in(alloc: Global, procedures: &[Procedure]) -> Result<Vec<Binder>, Memory>
    ensures { (texts : List (List ℕ)) (cells : List Cell) (xs : List SpecBinding) → AllZip (IsProcedure texts cells) procedures.now xs → IfOk result (λ found. AllZip (IsBinder texts) found.items (binders xs)) }
{
    let mut names = Vec::new(alloc);
    'procedures: for procedure in procedures {
        names.push(procedure.name)?;
    }
    Ok(names)
}

/// The names around a part with as many parts before it, where each part has these names.
fn binds_behind(alloc: Global, binders: &[Binder], count: usize) -> Result<Binds, Memory>
    ensures { (texts : List (List ℕ)) (bs : List SpecBinder) (before : List Name) → AllZip (IsBinder texts) binders.now bs → (count ≢ 0 → before ≡ names bs) → IfOk result (λ binds. AreBinds texts before binds (names bs)) }
{
    if count == 0 {
        let binds = names_of(alloc, binders)?;
        Ok(Binds::Names(binds))
    } else {
        Ok(Binds::AsBefore)
    }
}

/// Procedures, each inside all the names.
fn procedure_parts(
    alloc: Global,
    binders: &[Binder],
    procedures: &[Procedure],
) -> Result<Vec<Part>, Memory>
    ensures { (texts : List (List ℕ)) (cells : List Cell) (bs : List SpecBinder) (xs : List SpecBinding) → AllZip (IsBinder texts) binders.now bs → AllZip (IsProcedure texts cells) procedures.now xs → IfOk result (λ parts. AreParts texts cells [] parts.items (map (λ x. inside (names bs) x.value) xs)) }
{
    let mut parts = Vec::new(alloc);
    'procedures: for procedure in procedures {
        let binds = binds_behind(alloc, binders, parts.len())?;
        parts.push(Part {
            binds,
            form: procedure.value,
        })?;
    }
    Ok(parts)
}

/// LABELS with procedures.
fn labels_node(
    forms: &mut Forms,
    texts: &Names,
    span: Span,
    procedures: &[Procedure],
    bs: u32,
) -> Result<Row, Memory>
    ensures grown { OnOk result (Grows forms.old forms.new) }
    ensures row { (vars : List Var) (x : SpecBinding) (xs : List SpecBinding) (d : Datum) (ds : List Datum) → AllPairs (λ a b. a ≢ b) texts.now → AllZip (IsProcedure texts.now forms.old) procedures.now (x ∷ xs) → AreItems texts.now forms.old bs (d ∷ ds) → IfOk result (λ r. IsRow texts.now forms.new vars r (labels_node span (d ∷ ds) (x ∷ xs))) }
{
    let names = bound_in(forms.alloc(), procedures)?;
    let refusals = twice(forms.alloc(), names.as_slice())?;
    let form = body(forms, span, bs)?;
    let mut parts = procedure_parts(forms.alloc(), names.as_slice(), procedures)?;
    parts.push(Part {
        binds: Binds::AsBefore,
        form,
    })?;
    Ok(Row::Node {
        shape: Shape::Labels,
        refusals,
        parts,
    })
}

/// LABELS, with or without procedures.
fn labels_procedures(
    forms: &mut Forms,
    texts: &Names,
    span: Span,
    procedures: &[Procedure],
    bs: u32,
) -> Result<Row, Memory>
    ensures grown { OnOk result (Grows forms.old forms.new) }
    ensures row { (vars : List Var) (xs : List SpecBinding) (d : Datum) (ds : List Datum) → AllPairs (λ a b. a ≢ b) texts.now → AllZip (IsProcedure texts.now forms.old) procedures.now xs → AreItems texts.now forms.old bs (d ∷ ds) → IfOk result (λ r. IsRow texts.now forms.new vars r (labels_node span (d ∷ ds) xs)) }
{
    if procedures.len() == 0 {
        let form = body(forms, span, bs)?;
        Ok(Row::StandsFor(form))
    } else {
        labels_node(forms, texts, span, procedures, bs)
    }
}

/// LABELS by the items of its list.
fn labels_with(
    forms: &mut Forms,
    texts: &Names,
    span: Span,
    items: u32,
    bs: u32,
) -> Result<Row, Memory>
    ensures grown { OnOk result (Grows forms.old forms.new) }
    ensures row { (vars : List Var) (is : List Datum) (d : Datum) (ds : List Datum) → AllPairs (λ a b. a ≢ b) texts.now → AreItems texts.now forms.old items is → AreItems texts.now forms.old bs (d ∷ ds) → IfOk result (λ r. IsRow texts.now forms.new vars r (if_formed span (labels_node span (d ∷ ds)) (all_of (map (labels_item_of span) is)))) }
{
    let keys = keys_of(forms, items)?;
    let found = all_items(forms, span, keys.as_slice())?;
    labels_found(forms, texts, span, found, bs)
}

fn labels_found(
    forms: &mut Forms,
    texts: &Names,
    span: Span,
    found: Option<Vec<Procedure>>,
    bs: u32,
) -> Result<Row, Memory>
    ensures grown { OnOk result (Grows forms.old forms.new) }
    ensures row { (vars : List Var) (o : Option (List SpecBinding)) (d : Datum) (ds : List Datum) → AllPairs (λ a b. a ≢ b) texts.now → IsAllOf (IsProcedure texts.now forms.old) found o → AreItems texts.now forms.old bs (d ∷ ds) → IfOk result (λ r. IsRow texts.now forms.new vars r (if_formed span (labels_node span (d ∷ ds)) o)) }
{
    match found {
        None => no_row(forms, span),
        Some(procedures) => labels_procedures(forms, texts, span, procedures.as_slice(), bs),
    }
}

/// `(labels (s ..) B ..)`
pub fn labels_row(forms: &mut Forms, texts: &Names, span: Span, items: u32) -> Result<Row, Memory>
    ensures grown { OnOk result (Grows forms.old forms.new) }
    ensures row { (vars : List Var) (ds : List Datum) → AllPairs (λ a b. a ≢ b) texts.now → AreItems texts.now forms.old items ds → IfOk result (λ r. IsRow texts.now forms.new vars r (labels_row span ds)) }
{
    match with_body(forms, items) {
        None => no_row(forms, span),
        Some((list, bs)) => match items_of(forms, list) {
            None => no_row(forms, span),
            Some(listed) => labels_with(forms, texts, span, listed, bs),
        },
    }
}
