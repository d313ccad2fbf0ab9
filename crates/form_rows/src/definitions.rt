//! Defining forms.
ghost use Rattle.std.specs.Prelude.{◌≡◌, ◌∷◌, false, List, ℕ, is_some, IfOk, OnOk};
ghost use Rattle.t_base.specs.declared.basics.Var.{Var};
ghost use Rattle.t_forms.specs.Data.{Datum, binders_of};
ghost use Rattle.t_forms.specs.Held.{Held};
ghost use Rattle.t_rows.specs.Bindings.{IsBinder, IsAllOf};
ghost use Rattle.form_rows.specs.Definitions.{IsDefinitionIf};
ghost use Rattle.t_rows.specs.Lists.{IsHeldIf};
ghost use Rattle.t_rows.specs.Given.{IsRow};
ghost use Rattle.t_rows.specs.Lists.{Grows, AreItems, is_pair};
ghost use Rattle.t_rows.specs.Rows.{define_procedure, define_of, lset_of, default_of, define_operation_with, define_operation_of, definition_of_word, inner_definition};

use t_base::{Memory, Span};
use t_forms::Forms;
use t_objects::Word;
use t_rows::lists::{Few, few_items, is_pair, items_of, keys_of, split, with_body};
use t_rows::names::{Binder, binder_of, binders_of};
use t_rows::nodes::bad;
use t_rows::words::lambda_form;
use t_rows::{Refusal, Row, Shape, SyntaxKind};

/// What a defining form defines. Places are those of forms among the cells.
#[derive(Drop)]
pub enum Definition {
    Define {
        name: Binder,
        value: u32,
    },
    Lset {
        name: Binder,
        value: u32,
    },
    /// An operation, its parameters, and the LAMBDA of its default.
    Operation {
        name: Binder,
        params: Vec<Binder>,
        default: Option<u32>,
    },
}

/// The names that items are, if each is one.
pub fn item_names(forms: &Forms, items: u32) -> Result<Option<Vec<Binder>>, Memory>
    ensures { (names : List (List ℕ)) (ds : List Datum) → AreItems names forms.now items ds → IfOk result (λ r. IsAllOf (IsBinder names) r (binders_of ds)) }
{
    let keys = keys_of(forms, items)?;
    let binders = binders_of(forms, keys.as_slice())?;
    Ok(binders)
}

fn are_names(forms: &Forms, items: u32) -> Result<bool, Memory>
    ensures { (names : List (List ℕ)) (ds : List Datum) → AreItems names forms.now items ds → IfOk result (λ b. b ≡ is_some (binders_of ds)) }
{
    let found = item_names(forms, items)?;
    Ok(found.is_some())
}

/// `(define (f x ..) B ..)`
fn define_procedure(
    forms: &mut Forms,
    span: Span,
    name: u32,
    params: u32,
    items: u32,
) -> Result<Option<Definition>, Memory>
    ensures grown { OnOk result (Grows forms.old forms.new) }
    ensures definition { (names : List (List ℕ)) (f : Datum) (xs : List Datum) (b : Datum) (bs : List Datum) → Held names forms.old name f → AreItems names forms.old params xs → AreItems names forms.old items (b ∷ bs) → IfOk result (λ r. IsDefinitionIf names forms.new r (define_procedure span (f ∷ xs) (b ∷ bs))) }
{
    let named = are_names(forms, params)?;
    if named {
        match binder_of(forms, name) {
            None => Ok(None),
            Some(name) => {
                let value = lambda_form(forms, span, params, items)?;
                Ok(Some(Definition::Define { name, value }))
            }
        }
    } else {
        Ok(None)
    }
}

/// `(define (f x ..) B ..)`, by its head's items.
fn define_headed(
    forms: &mut Forms,
    span: Span,
    head: u32,
    items: u32,
) -> Result<Option<Definition>, Memory>
    ensures grown { OnOk result (Grows forms.old forms.new) }
    ensures definition { (names : List (List ℕ)) (fs : List Datum) (bs : List Datum) → AreItems names forms.old head fs → AreItems names forms.old items bs → IfOk result (λ r. IsDefinitionIf names forms.new r (define_procedure span fs bs)) }
{
    match split(forms, head) {
        None => Ok(None),
        Some((name, params)) => match split(forms, items) {
            None => Ok(None),
            Some(_) => define_procedure(forms, span, name, params, items),
        },
    }
}

/// `(define x e)`
fn define_name(forms: &mut Forms, name: u32, items: u32) -> Result<Option<Definition>, Memory>
    ensures grown { OnOk result (Grows forms.old forms.new) }
    ensures definition { (names : List (List ℕ)) (s : Span) (x : Datum) (bs : List Datum) → is_pair x ≡ false → Held names forms.old name x → AreItems names forms.old items bs → IfOk result (λ r. IsDefinitionIf names forms.new r (define_of s (x ∷ bs))) }
{
    match few_items(forms, items) {
        Few::One(value) => match binder_of(forms, name) {
            None => Ok(None),
            Some(name) => Ok(Some(Definition::Define { name, value })),
        },
        Few::Zero => Ok(None),
        Few::Two(_, _) => Ok(None),
        Few::Three(_, _, _) => Ok(None),
        Few::More => Ok(None),
    }
}

/// `(define x e)`, `(define (f x ..) B ..)`
fn define_of(forms: &mut Forms, span: Span, items: u32) -> Result<Option<Definition>, Memory>
    ensures grown { OnOk result (Grows forms.old forms.new) }
    ensures definition { (names : List (List ℕ)) (ds : List Datum) → AreItems names forms.old items ds → IfOk result (λ r. IsDefinitionIf names forms.new r (define_of span ds)) }
{
    match split(forms, items) {
        None => Ok(None),
        Some((first, behind)) => {
            if is_pair(forms, first) {
                match items_of(forms, first) {
                    None => Ok(None),
                    Some(head) => define_headed(forms, span, head, behind),
                }
            } else {
                define_name(forms, first, behind)
            }
        }
    }
}

/// `(lset x e)`
fn lset_of(forms: &mut Forms, items: u32) -> Result<Option<Definition>, Memory>
    ensures grown { OnOk result (Grows forms.old forms.new) }
    ensures definition { (names : List (List ℕ)) (ds : List Datum) → AreItems names forms.old items ds → IfOk result (λ r. IsDefinitionIf names forms.new r (lset_of ds)) }
{
    match few_items(forms, items) {
        Few::Two(name, value) => match binder_of(forms, name) {
            None => Ok(None),
            Some(name) => Ok(Some(Definition::Lset { name, value })),
        },
        Few::Zero => Ok(None),
        Few::One(_) => Ok(None),
        Few::Three(_, _, _) => Ok(None),
        Few::More => Ok(None),
    }
}

/// The LAMBDA of a default, if there is a body.
fn default_of(forms: &mut Forms, span: Span, params: u32, items: u32) -> Result<Option<u32>, Memory>
    ensures grown { OnOk result (Grows forms.old forms.new) }
    ensures made { (names : List (List ℕ)) (xs : List Datum) (bs : List Datum) → AreItems names forms.old params xs → AreItems names forms.old items bs → IfOk result (λ k. IsHeldIf names forms.new k (default_of span xs bs)) }
{
    match split(forms, items) {
        None => Ok(None),
        Some(_) => {
            let form = lambda_form(forms, span, params, items)?;
            Ok(Some(form))
        }
    }
}

/// `(define-operation (op self x ..) B ..)`, where `self x ..` are these items.
fn define_operation_with(
    forms: &mut Forms,
    span: Span,
    name: u32,
    params: u32,
    items: u32,
) -> Result<Option<Definition>, Memory>
    ensures grown { OnOk result (Grows forms.old forms.new) }
    ensures definition { (names : List (List ℕ)) (op : Datum) (me : Datum) (xs : List Datum) (bs : List Datum) → Held names forms.old name op → AreItems names forms.old params (me ∷ xs) → AreItems names forms.old items bs → IfOk result (λ r. IsDefinitionIf names forms.new r (define_operation_with span (op ∷ me ∷ xs) bs)) }
{
    let found = item_names(forms, params)?;
    match found {
        None => Ok(None),
        Some(binders) => match binder_of(forms, name) {
            None => Ok(None),
            Some(name) => {
                let default = default_of(forms, span, params, items)?;
                Ok(Some(Definition::Operation {
                    name,
                    params: binders,
                    default,
                }))
            }
        },
    }
}

/// `(define-operation op)`
fn define_operation_named(
    forms: &mut Forms,
    name: u32,
    items: u32,
) -> Result<Option<Definition>, Memory>
    ensures grown { OnOk result (Grows forms.old forms.new) }
    ensures definition { (names : List (List ℕ)) (s : Span) (x : Datum) (bs : List Datum) → is_pair x ≡ false → Held names forms.old name x → AreItems names forms.old items bs → IfOk result (λ r. IsDefinitionIf names forms.new r (define_operation_of s (x ∷ bs))) }
{
    match split(forms, items) {
        None => match binder_of(forms, name) {
            None => Ok(None),
            Some(name) => Ok(Some(Definition::Operation {
                name,
                params: Vec::new(forms.alloc()),
                default: None,
            })),
        },
        Some(_) => Ok(None),
    }
}

/// `(define-operation op)`, `(define-operation (op self x ..) B ..)`
fn define_operation_of(
    forms: &mut Forms,
    span: Span,
    items: u32,
) -> Result<Option<Definition>, Memory>
    ensures grown { OnOk result (Grows forms.old forms.new) }
    ensures definition { (names : List (List ℕ)) (ds : List Datum) → AreItems names forms.old items ds → IfOk result (λ r. IsDefinitionIf names forms.new r (define_operation_of span ds)) }
{
    match split(forms, items) {
        None => Ok(None),
        Some((first, behind)) => {
            if is_pair(forms, first) {
                match items_of(forms, first) {
                    None => Ok(None),
                    Some(head) => match with_body(forms, head) {
                        None => Ok(None),
                        Some((name, params)) => define_operation_with(
                            forms, span, name, params, behind,
                        ),
                    },
                }
            } else {
                define_operation_named(forms, first, behind)
            }
        }
    }
}

/// What a form of a word with items behind it defines, if it is a well-formed defining form.
pub fn definition_of(
    forms: &mut Forms,
    span: Span,
    items: u32,
    word: Option<Word>,
) -> Result<Option<Definition>, Memory>
    ensures grown { OnOk result (Grows forms.old forms.new) }
    ensures definition { (names : List (List ℕ)) (ds : List Datum) → AreItems names forms.old items ds → IfOk result (λ r. IsDefinitionIf names forms.new r (definition_of_word span ds word)) }
{
    match word {
        Some(Word::Define) => define_of(forms, span, items),
        Some(Word::Lset) => lset_of(forms, items),
        Some(Word::DefineOperation) => define_operation_of(forms, span, items),
        Some(_) => Ok(None),
        None => Ok(None),
    }
}

fn malformed(forms: &mut Forms, span: Span) -> Result<Row, Memory>
    ensures grown { OnOk result (Grows forms.old forms.new) }
    ensures row { (names : List (List ℕ)) (vars : List Var) → IfOk result (λ r. IsRow names forms.new vars r (inner_definition span None)) }
{
    let mut refusals = Vec::new(forms.alloc());
    refusals.push(Refusal {
        kind: SyntaxKind::BadForm,
        span,
    })?;
    refusals.push(Refusal {
        kind: SyntaxKind::NotTopLevel,
        span,
    })?;
    Ok(Row::Node {
        shape: Shape::Nothing,
        refusals,
        parts: Vec::new(forms.alloc()),
    })
}

fn is_definition(forms: &mut Forms, span: Span, items: u32, word: Word) -> Result<bool, Memory>
    ensures grown { OnOk result (Grows forms.old forms.new) }
    ensures is { (names : List (List ℕ)) (ds : List Datum) → AreItems names forms.old items ds → IfOk result (λ b. b ≡ is_some (definition_of_word span ds (Some word))) }
{
    let found = definition_of(forms, span, items, Some(word))?;
    Ok(found.is_some())
}

/// A defining form elsewhere than at top level.
pub fn inner_definition(
    forms: &mut Forms,
    span: Span,
    items: u32,
    word: Word,
) -> Result<Row, Memory>
    ensures grown { OnOk result (Grows forms.old forms.new) }
    ensures row { (names : List (List ℕ)) (vars : List Var) (ds : List Datum) → AreItems names forms.old items ds → IfOk result (λ r. IsRow names forms.new vars r (inner_definition span (definition_of_word span ds (Some word)))) }
{
    let formed = is_definition(forms, span, items, word)?;
    if formed {
        let row = bad(forms, SyntaxKind::NotTopLevel, span)?;
        Ok(row)
    } else {
        malformed(forms, span)
    }
}
