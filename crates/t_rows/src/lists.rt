//! Lists of forms, taken apart.
ghost use Rattle.std.specs.Prelude.{◌≡◌, ◌∷◌, List, ℕ, length, IfOk};
ghost use Rattle.t_forms.specs.Data.{Datum, span_of, word_of};
ghost use Rattle.t_forms.specs.Held.{Held};
ghost use Rattle.t_rows.specs.Lists.{AreHeld, AreItems, AreItemsOf, IsSplit, IsWithBody, IsFew, IsNameOf, IsHeadOf, is_new, is_pair};

use t_base::{Memory, Span};
use t_forms::{Form, Forms, LocalName};
use t_objects::Word;

/// The items of a list of at most three.
#[derive(Clone, Copy)]
pub enum Few {
    Zero,
    One(u32),
    Two(u32, u32),
    Three(u32, u32, u32),
    More,
}

/// Where the items of a list are gone over, if a form is a list.
pub fn items_of(forms: &Forms, key: u32) -> Option<u32>
    ensures { (names : List (List ℕ)) (d : Datum) → Held names forms.now key d → AreItemsOf names forms.now result d }
{
    match forms.get(key) {
        Some(cell) => match &cell.form {
            Form::Nil => Some(key),
            Form::Pair { count, .. } => match count.get() {
                Some(_) => Some(key),
                None => None,
            },
            _ => None,
        },
        None => None,
    }
}

/// The first item and what is behind it.
pub fn split(forms: &Forms, items: u32) -> Option<(u32, u32)>
    ensures { (names : List (List ℕ)) (ds : List Datum) → AreItems names forms.now items ds → IsSplit names forms.now result ds }
{
    match forms.get(items) {
        Some(cell) => match &cell.form {
            Form::Pair { head, tail, .. } => Some((*head, *tail)),
            _ => None,
        },
        None => None,
    }
}

/// The first item, and what is behind it, if something is.
pub fn with_body(forms: &Forms, items: u32) -> Option<(u32, u32)>
    ensures { (names : List (List ℕ)) (ds : List Datum) → AreItems names forms.now items ds → IsWithBody names forms.now result ds }
{
    match split(forms, items) {
        None => None,
        Some((first, behind)) => match split(forms, behind) {
            None => None,
            Some(_) => Some((first, behind)),
        },
    }
}

fn two_at_most(forms: &Forms, first: u32, items: u32) -> Few
    ensures { (names : List (List ℕ)) (d : Datum) (ds : List Datum) → Held names forms.now first d → AreItems names forms.now items ds → IsFew names forms.now result (d ∷ ds) }
{
    match split(forms, items) {
        None => Few::One(first),
        Some((second, behind)) => match split(forms, behind) {
            None => Few::Two(first, second),
            Some((third, behind)) => match split(forms, behind) {
                None => Few::Three(first, second, third),
                Some(_) => Few::More,
            },
        },
    }
}

/// The items of a list, if they are at most three.
pub fn few_items(forms: &Forms, items: u32) -> Few
    ensures { (names : List (List ℕ)) (ds : List Datum) → AreItems names forms.now items ds → IsFew names forms.now result ds }
{
    match split(forms, items) {
        None => Few::Zero,
        Some((first, behind)) => two_at_most(forms, first, behind),
    }
}

/// The places of the items.
pub fn keys_of(forms: &Forms, items: u32) -> Result<Vec<u32>, Memory>
    ensures { (names : List (List ℕ)) (ds : List Datum) → AreItems names forms.now items ds → IfOk result (λ keys. AreHeld names forms.now keys.items ds) }
{
    let mut keys = Vec::new(forms.alloc());
    let mut at = items;
    'items: while let Some((head, tail)) = split(forms, at) {
        keys.push(head)?;
        if tail >= at {
            return Err(Memory);
        }
        at = tail;
    }
    Ok(keys)
}

/// How many items there are.
pub fn count_of(forms: &Forms, items: u32) -> Result<u32, Memory>
    ensures { (names : List (List ℕ)) (ds : List Datum) → AreItems names forms.now items ds → IfOk result (λ n. n ≡ length ds) }
{
    match forms.get(items) {
        Some(cell) => match &cell.form {
            Form::Nil => Ok(0),
            Form::Pair { count, .. } => match count.get() {
                Some(n) => Ok(n),
                None => Err(Memory),
            },
            _ => Err(Memory),
        },
        None => Err(Memory),
    }
}

/// The span of a form.
pub fn span_of(forms: &Forms, key: u32) -> Span
    ensures { (names : List (List ℕ)) (d : Datum) → Held names forms.now key d → result ≡ span_of d }
{
    match forms.get(key) {
        Some(cell) => cell.span,
        None => Span { start: 0, end: 0 },
    }
}

/// The reserved word that a form is.
pub fn word_of(forms: &Forms, key: u32) -> Option<Word>
    ensures { (names : List (List ℕ)) (d : Datum) → Held names forms.now key d → result ≡ word_of d }
{
    match forms.get(key) {
        Some(cell) => match &cell.form {
            Form::Word(word) => Some(*word),
            _ => None,
        },
        None => None,
    }
}

/// The name that a form is.
pub fn name_of(forms: &Forms, key: u32) -> Option<LocalName>
    ensures { (names : List (List ℕ)) (d : Datum) → Held names forms.now key d → IsNameOf names result d }
{
    match forms.get(key) {
        Some(cell) => match &cell.form {
            Form::Sym(name) => Some(LocalName::Written(*name)),
            Form::Variable(new) => Some(LocalName::Made(*new)),
            _ => None,
        },
        None => None,
    }
}

/// Whether a form is a new variable.
pub fn is_new(forms: &Forms, key: u32) -> bool
    ensures { (names : List (List ℕ)) (d : Datum) → Held names forms.now key d → result ≡ is_new d }
{
    match forms.get(key) {
        Some(cell) => matches!(&cell.form, Form::Variable(_)),
        None => false,
    }
}

/// Whether a form is a pair.
pub fn is_pair(forms: &Forms, key: u32) -> bool
    ensures { (names : List (List ℕ)) (d : Datum) → Held names forms.now key d → result ≡ is_pair d }
{
    match forms.get(key) {
        Some(cell) => matches!(&cell.form, Form::Pair { .. }),
        None => false,
    }
}

/// The first part of a pair.
pub fn head_of(forms: &Forms, key: u32) -> Option<u32>
    ensures { (names : List (List ℕ)) (d : Datum) → Held names forms.now key d → IsHeadOf names forms.now result d }
{
    match forms.get(key) {
        Some(cell) => match &cell.form {
            Form::Pair { head, .. } => Some(*head),
            _ => None,
        },
        None => None,
    }
}
