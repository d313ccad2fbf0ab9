//! Forms that rows make, written as a text is: a list of pieces.
ghost use Rattle.std.specs.Prelude.{◌≡◌, ◌∷◌, [], List, ℕ, slice_get, IfOk, OnOk};
ghost use Rattle.t_forms.specs.Data.{Datum};
ghost use Rattle.t_forms.specs.Held.{Held, IsAtom};
ghost use Rattle.t_forms.specs.declared.arena.Cell.{Cell};
ghost use Rattle.t_rows.specs.Lists.{Grows, AreHeld, AreItems, AreLists, AreOpen, AreRest};
ghost use Rattle.t_rows.specs.Templates.{atom_of, item, item_of, opened, ended, before, written_list};

use crate::making::{cons, list_of, made, no_items};
use t_base::{Memory, Prim, Span};
use t_forms::{Form, Forms, New};
use t_objects::Word;

/// A piece of a form that a row makes. A list is closed by `Close`, and a rest, if it has one, stands right before that.
#[derive(Clone, Copy)]
pub enum Piece {
    Open,
    Close,
    /// The items of the rest with this number.
    Rest(usize),
    /// The form with this number.
    Given(usize),
    Word(Word),
    Variable(New),
    Builtin(Prim),
    Operation(u32),
    Listing,
    Nil,
    True,
}

/// The lists that are open, by the items that they have so far: the innermost, and those around it, the outermost first.
#[derive(Drop)]
struct OpenLists {
    items: u32,
    outer: Vec<u32>,
}

fn key_at(keys: &[u32], at: usize) -> Option<u32>
    ensures { result ≡ slice_get keys.now at }
{
    keys.get(at).copied()
}

/// The atom that a piece is.
fn atom_of(piece: Piece) -> Form
    ensures { (names : List (List ℕ)) → IsAtom names result (atom_of piece) }
{
    match piece {
        Piece::Word(word) => Form::Word(word),
        Piece::Variable(new) => Form::Variable(new),
        Piece::Builtin(p) => Form::Builtin(p),
        Piece::Operation(o) => Form::Operation(o),
        Piece::Listing => Form::Listing,
        Piece::True => Form::True,
        Piece::Open => Form::Nil,
        Piece::Close => Form::Nil,
        Piece::Rest(_) => Form::Nil,
        Piece::Given(_) => Form::Nil,
        Piece::Nil => Form::Nil,
    }
}

/// The item that a piece is.
fn item_of(forms: &mut Forms, span: Span, given: &[u32], piece: Piece) -> Result<u32, Memory>
    ensures grown { OnOk result (Grows forms.old forms.new) }
    ensures made { (names : List (List ℕ)) (ds : List Datum) → AreHeld names forms.old given.now ds → IfOk result (λ key. Held names forms.new key (item_of span ds piece)) }
{
    match piece {
        Piece::Given(at) => match key_at(given, at) {
            Some(key) => Ok(key),
            None => {
                let nil = made(forms, span, Form::Nil)?;
                Ok(nil)
            }
        },
        _ => {
            let key = made(forms, span, atom_of(piece))?;
            Ok(key)
        }
    }
}

/// Puts an item into the innermost list.
fn put(forms: &mut Forms, span: Span, head: u32, lists: &mut OpenLists) -> Result<(), Memory>
    ensures grown { OnOk result (Grows forms.old forms.new) }
    ensures put { (names : List (List ℕ)) (d : Datum) (st : List (List Datum)) → Held names forms.old head d → AreOpen names forms.old lists.old.items lists.old.outer.items st → OnOk result (AreOpen names forms.new lists.new.items lists.new.outer.items (item d st)) }
{
    lists.items = cons(forms, span, head, lists.items)?;
    Ok(())
}

/// Puts the innermost list into the one around it.
fn open(forms: &mut Forms, span: Span, lists: &mut OpenLists) -> Result<(), Memory>
    ensures grown { OnOk result (Grows forms.old forms.new) }
    ensures put { (names : List (List ℕ)) (st : List (List Datum)) → AreOpen names forms.old lists.old.items lists.old.outer.items st → OnOk result (AreOpen names forms.new lists.new.items lists.new.outer.items (opened span st)) }
{
    match lists.outer.pop() {
        None => Ok(()),
        Some(outer) => {
            let head = list_of(forms, span, lists.items)?;
            lists.items = cons(forms, span, head, outer)?;
            Ok(())
        }
    }
}

/// Goes into a list inside the innermost one. It has no items yet: those of `nil`.
fn close(nil: u32, lists: &mut OpenLists) -> Result<(), Memory>
    ensures { (names : List (List ℕ)) (cells : List Cell) (st : List (List Datum)) → AreItems names cells nil [] → AreOpen names cells lists.old.items lists.old.outer.items st → OnOk result (AreOpen names cells lists.new.items lists.new.outer.items ([] ∷ st)) }
{
    lists.outer.push(lists.items)?;
    lists.items = nil;
    Ok(())
}

/// Puts a rest into the innermost list; without one it has no items, those of `nil`.
fn end(nil: u32, rest: Option<u32>, lists: &mut OpenLists)
    ensures { (names : List (List ℕ)) (cells : List Cell) (ds : List Datum) (st : List (List Datum)) → AreItems names cells nil [] → AreRest names cells rest ds → AreOpen names cells lists.old.items lists.old.outer.items st → AreOpen names cells lists.new.items lists.new.outer.items (ended ds st) }
{
    lists.items = rest.unwrap_or(nil);
}

/// Puts a piece before what stands behind it. `nil` is no items.
fn place(
    forms: &mut Forms,
    span: Span,
    given: &[u32],
    rests: &[u32],
    nil: u32,
    piece: Piece,
    lists: &mut OpenLists,
) -> Result<(), Memory>
    ensures grown { OnOk result (Grows forms.old forms.new) }
    ensures put { (names : List (List ℕ)) (ds : List Datum) (dss : List (List Datum)) (st : List (List Datum)) → AreHeld names forms.old given.now ds → AreLists names forms.old rests.now dss → AreItems names forms.old nil [] → AreOpen names forms.old lists.old.items lists.old.outer.items st → OnOk result (AreOpen names forms.new lists.new.items lists.new.outer.items (before span ds dss piece st)) }
{
    match piece {
        Piece::Open => open(forms, span, lists),
        Piece::Close => close(nil, lists),
        Piece::Rest(at) => {
            end(nil, key_at(rests, at), lists);
            Ok(())
        }
        piece => {
            let head = item_of(forms, span, given, piece)?;
            put(forms, span, head, lists)?;
            Ok(())
        }
    }
}

/// The list that the pieces between its parentheses stand for.
pub fn written(
    forms: &mut Forms,
    span: Span,
    given: &[u32],
    rests: &[u32],
    template: &[Piece],
) -> Result<u32, Memory>
    ensures grown { OnOk result (Grows forms.old forms.new) }
    ensures made { (names : List (List ℕ)) (ds : List Datum) (dss : List (List Datum)) → AreHeld names forms.old given.now ds → AreLists names forms.old rests.now dss → IfOk result (λ key. Held names forms.new key (written_list span ds dss template.now)) }
{
    let nil = no_items(forms, span)?;
    let mut lists = OpenLists {
        items: nil,
        outer: Vec::new(forms.alloc()),
    };
    let mut at = template.len();
    'pieces: while at > 0 {
        at -= 1;
        place(forms, span, given, rests, nil, template[at], &mut lists)?;
    }
    let list = list_of(forms, span, lists.items)?;
    Ok(list)
}
