// The forms at top level.
ghost use Rattle.std.specs.Prelude.{◌≡◌, List, ℕ, ◌∷◌, [], Some, map, IfOk, OnOk};
ghost use Rattle.t_forms.specs.Data.{Datum, span_of, items_of};
ghost use Rattle.t_forms.specs.Held.{Held, AllHeld, Extends};
ghost use Rattle.expansion.specs.Units.{definition_of_items, definition_in, is_defining, defines, is_herald_items, without_herald, top_of, tops_of};
ghost use Rattle.t_rows.specs.Lists.{Grows, AreItems};
ghost use Rattle.form_rows.specs.Definitions.{IsDefinitionIf};
ghost use Rattle.unit_tops.specs.Tops.{IsOperator, IsTop, AreTops, is_herald_head};

use form_rows::{Definition, definition_of};
use t_base::{Memory, Names, Span};
use t_forms::{Form, Forms};
use t_objects::Word;
use t_rows::lists::{items_of, split};

/// A form at top level: what it defines, the span of a defining form that is no row, or the place of an expression.
#[derive(Drop)]
pub enum Top {
    Defining(Definition),
    Broken(Span),
    Expression(u32),
}

fn is_defining(word: Option<Word>) -> bool
    ensures { result ≡ is_defining word }
{
    match word {
        Some(Word::Define) => true,
        Some(Word::Lset) => true,
        Some(Word::DefineOperation) => true,
        _ => false,
    }
}

/// The first item of the list that a form is, if it is a list with an item.
fn operator(forms: &Forms, key: u32) -> Option<u32>
    ensures { (names : List (List ℕ)) (d : Datum) → Held names forms.now key d → IsOperator names forms.now result (items_of d) }
{
    match items_of(forms, key) {
        None => None,
        Some(items) => match split(forms, items) {
            None => None,
            Some((head, _)) => Some(head),
        },
    }
}

/// What a form defines, whose items are these.
fn defined_by_items(forms: &mut Forms, key: u32, items: u32) -> Result<Option<Definition>, Memory>
    ensures grown { OnOk result (Grows forms.old forms.new) }
    ensures defines { (names : List (List ℕ)) (d : Datum) (ds : List Datum) → Held names forms.old key d → AreItems names forms.old items ds → IfOk result (λ r. IsDefinitionIf names forms.new r (definition_of_items (span_of d) (Some ds))) }
{
    match split(forms, items) {
        None => Ok(None),
        Some((head, behind)) => {
            let span = forms.span(key);
            let word = forms.word(head);
            definition_of(forms, span, behind, word)
        }
    }
}

/// What a form defines at top level. A form that isn't a row of a defining word defines nothing.
fn defined_by(forms: &mut Forms, key: u32) -> Result<Option<Definition>, Memory>
    ensures grown { OnOk result (Grows forms.old forms.new) }
    ensures defines { (names : List (List ℕ)) (d : Datum) → Held names forms.old key d → IfOk result (λ r. IsDefinitionIf names forms.new r (definition_in d)) }
{
    match items_of(forms, key) {
        None => Ok(None),
        Some(items) => defined_by_items(forms, key, items),
    }
}

/// Whether a form's operator is a defining word.
fn defines(forms: &Forms, key: u32) -> bool
    ensures { (names : List (List ℕ)) (d : Datum) → Held names forms.now key d → result ≡ defines (items_of d) }
{
    match operator(forms, key) {
        Some(head) => is_defining(forms.word(head)),
        None => false,
    }
}

fn top_of(forms: &mut Forms, key: u32) -> Result<Top, Memory>
    ensures grown { OnOk result (Extends forms.old forms.new) }
    ensures top { (names : List (List ℕ)) (d : Datum) → Held names forms.old key d → IfOk result (λ t. IsTop names forms.new t (top_of d)) }
{
    if !defines(forms, key) {
        return Ok(Top::Expression(key));
    }
    let at = forms.span(key);
    match defined_by(forms, key)? {
        Some(definition) => Ok(Top::Defining(definition)),
        None => Ok(Top::Broken(at)),
    }
}

/// Whether a form is the symbol `herald`.
fn is_herald_head(forms: &Forms, names: &Names, key: u32) -> bool
    ensures { (d : Datum) → Held names.now forms.now key d → result ≡ is_herald_head d }
{
    match forms.get(key) {
        Some(cell) => match &cell.form {
            Form::Sym(name) => name.0 < names.count() && names.text(*name) == b"herald".as_slice(),
            _ => false,
        },
        None => false,
    }
}

fn is_herald(forms: &Forms, names: &Names, key: u32) -> bool
    ensures { (d : Datum) → Held names.now forms.now key d → result ≡ is_herald_items (items_of d) }
{
    match operator(forms, key) {
        Some(head) => is_herald_head(forms, names, head),
        None => false,
    }
}

/// The forms behind a herald in front, if there is one.
fn without_herald<'a>(forms: &Forms, names: &Names, keys: &'a [u32]) -> &'a [u32]
    ensures { (ds : List Datum) → AllHeld names.now forms.now keys.now ds → AllHeld names.now forms.now result.now (without_herald ds) }
{
    match keys {
        [] => keys,
        [first, rest @ ..] => {
            if is_herald(forms, names, *first) {
                rest
            } else {
                keys
            }
        }
    }
}

fn all_tops(forms: &mut Forms, keys: &[u32]) -> Result<Vec<Top>, Memory>
    ensures grown { OnOk result (Extends forms.old forms.new) }
    ensures tops { (names : List (List ℕ)) (ds : List Datum) → AllHeld names forms.old keys.now ds → IfOk result (λ tops. AreTops names forms.new tops.items (map top_of ds)) }
{
    let mut tops = Vec::new(forms.alloc());
    'keys: for key in keys {
        let top = top_of(forms, *key)?;
        tops.push(top)?;
    }
    Ok(tops)
}

/// The forms at top level of these data, without a herald in front. Cells are only added. The only error is the want of memory.
pub fn tops_of(forms: &mut Forms, names: &Names, keys: &[u32]) -> Result<Vec<Top>, Memory>
    ensures grown { OnOk result (Extends forms.old forms.new) }
    ensures tops { (ds : List Datum) → AllHeld names.now forms.old keys.now ds → IfOk result (λ tops. AreTops names.now forms.new tops.items (tops_of ds)) }
{
    let keys = without_herald(forms, names, keys);
    all_tops(forms, keys)
}
