//! Cells of forms that rows make.
ghost use Rattle.std.specs.Prelude.{◌++◌, ◌≡◌, ◌∷◌, [], List, ℕ, true, IfOk, OnOk};
ghost use Rattle.t_forms.specs.Data.{Atom, Datum, atom, listed};
ghost use Rattle.t_forms.specs.Held.{Held, IsAtom};
ghost use Rattle.t_rows.specs.Lists.{Grows, AreHeld, AreItems};

use crate::lists::{count_of, keys_of, split};
use t_base::{Memory, Span};
use t_forms::{Form, Forms, ItemCount};

/// An atom.
pub fn made(forms: &mut Forms, span: Span, form: Form) -> Result<u32, Memory>
    ensures grown { OnOk result (Grows forms.old forms.new) }
    ensures made { (names : List (List ℕ)) (a : Atom) → IsAtom names form a → IfOk result (λ key. Held names forms.new key (atom span a)) }
{
    let key = forms.add(span, form)?;
    Ok(key)
}

/// No items.
pub fn no_items(forms: &mut Forms, span: Span) -> Result<u32, Memory>
    ensures grown { OnOk result (Grows forms.old forms.new) }
    ensures made { (names : List (List ℕ)) → IfOk result (λ key. AreItems names forms.new key []) }
{
    let key = forms.add(span, Form::Nil)?;
    Ok(key)
}

/// An item before others.
pub fn cons(forms: &mut Forms, span: Span, head: u32, tail: u32) -> Result<u32, Memory>
    ensures grown { OnOk result (Grows forms.old forms.new) }
    ensures items { (names : List (List ℕ)) (d : Datum) (ds : List Datum) → Held names forms.old head d → AreItems names forms.old tail ds → IfOk result (λ key. AreItems names forms.new key (d ∷ ds)) }
    ensures list { (names : List (List ℕ)) (d : Datum) (ds : List Datum) → Held names forms.old head d → AreItems names forms.old tail ds → IfOk result (λ key. Held names forms.new key (listed span (d ∷ ds))) }
{
    let behind = count_of(forms, tail)?;
    if behind >= u32::MAX - 1 {
        return Err(Memory);
    }
    let count = ItemCount::new(Some(behind + 1));
    let key = forms.add(span, Form::Pair { head, tail, count })?;
    Ok(key)
}

/// Whether the cell at a place has a span.
fn has_span(forms: &Forms, items: u32, span: Span) -> bool
    ensures { (names : List (List ℕ)) (ds : List Datum) → AreItems names forms.now items ds → result ≡ true → Held names forms.now items (listed span ds) }
{
    match forms.get(items) {
        Some(cell) => cell.span.start == span.start && cell.span.end == span.end,
        None => false,
    }
}

/// The list of items. Where their first cell has the span, it is the list.
pub fn list_of(forms: &mut Forms, span: Span, items: u32) -> Result<u32, Memory>
    ensures grown { OnOk result (Grows forms.old forms.new) }
    ensures made { (names : List (List ℕ)) (ds : List Datum) → AreItems names forms.old items ds → IfOk result (λ key. Held names forms.new key (listed span ds)) }
{
    if has_span(forms, items, span) {
        return Ok(items);
    }
    match split(forms, items) {
        None => {
            let nil = forms.add(span, Form::Nil)?;
            Ok(nil)
        }
        Some((head, tail)) => {
            let items = cons(forms, span, head, tail)?;
            Ok(items)
        }
    }
}

/// The items that keys are, one for each.
pub fn items_of_keys(forms: &mut Forms, span: Span, keys: &[u32]) -> Result<u32, Memory>
    ensures grown { OnOk result (Grows forms.old forms.new) }
    ensures made { (names : List (List ℕ)) (ds : List Datum) → AreHeld names forms.old keys.now ds → IfOk result (λ items. AreItems names forms.new items ds) }
{
    let mut items = no_items(forms, span)?;
    let mut at = keys.len();
    'keys: while at > 0 {
        at -= 1;
        items = cons(forms, span, keys[at], items)?;
    }
    Ok(items)
}

/// The list that keys are, one for each item.
pub fn list_of_keys(forms: &mut Forms, span: Span, keys: &[u32]) -> Result<u32, Memory>
    ensures grown { OnOk result (Grows forms.old forms.new) }
    ensures made { (names : List (List ℕ)) (ds : List Datum) → AreHeld names forms.old keys.now ds → IfOk result (λ key. Held names forms.new key (listed span ds)) }
{
    let items = items_of_keys(forms, span, keys)?;
    let list = list_of(forms, span, items)?;
    Ok(list)
}

/// The places of items, and one behind them.
pub fn keys_and_last(forms: &Forms, items: u32, last: u32) -> Result<Vec<u32>, Memory>
    ensures { (names : List (List ℕ)) (ds : List Datum) (d : Datum) → AreItems names forms.now items ds → Held names forms.now last d → IfOk result (λ keys. AreHeld names forms.now keys.items (ds ++ d ∷ [])) }
{
    let mut keys = keys_of(forms, items)?;
    keys.push(last)?;
    Ok(keys)
}
