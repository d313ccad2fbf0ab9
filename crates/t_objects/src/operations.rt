//! The operations that a unit defines.

ghost use Rattle.std.specs.Prelude.{◌≡◌, ◌<◌, ◌++◌, List, ℕ, Option, false, replicate, slice_get, length, IfOk, OnOk};
ghost use Rattle.t_base.specs.declared.shared_parts.OpInfo.{OpInfo};
ghost use Rattle.t_reader.specs.Grammar.{Tree};
ghost use Rattle.t_reader.specs.Unit.{Holds, HoldTrees};
ghost use Rattle.t_objects.specs.Lists.{ArePartsOf, IsPlaceOf, symbol_of, is_nil, word_of, name_of, is_list_of};
ghost use Rattle.t_objects.specs.Operations.{IsEntry, is_pair, is_operation_row, operation_if, operation_with, operation_behind, defines_operation, operation_of, builtin_entries, with_one, with_entry, Marks, IsMarked, IsAdded, IsTableOf};

use crate::words::{Word, word_of};
use std::alloc::Global;
use t_base::{Memory, Name, Names, OpInfo};
use t_reader::{Datum, Node, Unit};

/// The operations of a unit: `setter`, `contents` and `set-contents`, then those that its forms define, each where it is defined
/// first.
#[derive(Drop)]
pub struct OpTable {
    pub ops: Vec<OpInfo>,
}

/// The two parts of a pair.
fn parts(nodes: &[Node], key: u32) -> Option<(u32, u32)>
    ensures { (names : List (List ℕ)) (t : Tree) → Holds names nodes.now key t → ArePartsOf names nodes.now key t result }
{
    match nodes.get(key as usize) {
        Some(node) => match &node.datum {
            Datum::Pair { head, tail } => Some((*head, *tail)),
            _ => None,
        },
        None => None,
    }
}

/// The symbol at a place.
fn symbol(nodes: &[Node], key: u32) -> Option<Name>
    ensures { (names : List (List ℕ)) (t : Tree) → Holds names nodes.now key t → IsPlaceOf names (symbol_of t) result }
{
    match nodes.get(key as usize) {
        Some(node) => match &node.datum {
            Datum::Sym(name) => Some(*name),
            _ => None,
        },
        None => None,
    }
}

fn is_nil(nodes: &[Node], key: u32) -> bool
    ensures { (names : List (List ℕ)) (t : Tree) → Holds names nodes.now key t → result ≡ is_nil t }
{
    match nodes.get(key as usize) {
        Some(node) => matches!(&node.datum, Datum::Nil),
        None => false,
    }
}

fn is_pair(nodes: &[Node], key: u32) -> bool
    ensures { (names : List (List ℕ)) (t : Tree) → Holds names nodes.now key t → result ≡ is_pair t }
{
    match nodes.get(key as usize) {
        Some(node) => matches!(&node.datum, Datum::Pair { .. }),
        None => false,
    }
}

/// The reserved word that a datum is.
fn word(unit: &Unit, key: u32) -> Option<Word>
    ensures { (t : Tree) → Holds unit.now.names unit.now.nodes.items key t → result ≡ word_of t }
{
    let name = symbol(unit.nodes.as_slice(), key)?;
    if name.0 < unit.names.count() {
        word_of(unit.names.text(name))
    } else {
        None
    }
}

/// The name that a datum is, where it can be bound.
fn name_at(unit: &Unit, key: u32) -> Option<Name>
    ensures { (t : Tree) → Holds unit.now.names unit.now.nodes.items key t → IsPlaceOf unit.now.names (name_of t) result }
{
    let name = symbol(unit.nodes.as_slice(), key)?;
    match word(unit, key) {
        Some(_) => None,
        None => Some(name),
    }
}

/// Whether a datum is a list, whose items are names where that is wanted.
fn is_list(unit: &Unit, key: u32, names: bool) -> bool
    ensures { (t : Tree) → Holds unit.now.names unit.now.nodes.items key t → result ≡ is_list_of names t }
{
    let mut at = key;
    'items: while let Some((head, tail)) = parts(unit.nodes.as_slice(), at) {
        if names && name_at(unit, head).is_none() {
            return false;
        }
        if tail >= at {
            return false;
        }
        at = tail;
    }
    is_nil(unit.nodes.as_slice(), at)
}

/// What stands behind op in `(op self x ..)`, before a body.
fn is_operation_row(unit: &Unit, params: u32, body: u32) -> bool
    ensures { (p : Tree) (b : Tree) → Holds unit.now.names unit.now.nodes.items params p → Holds unit.now.names unit.now.nodes.items body b → result ≡ is_operation_row p b }
{
    is_pair(unit.nodes.as_slice(), params)
        && is_list(unit, params, true)
        && is_list(unit, body, false)
}

fn operation_if(row: bool, default: bool, name: Option<Name>) -> Option<OpInfo>
    ensures { (names : List (List ℕ)) (text : Option (List ℕ)) → IsPlaceOf names text name → IsEntry names (operation_if row default text) result }
{
    match name {
        None => None,
        Some(name) => {
            if row {
                Some(OpInfo { name, default })
            } else {
                None
            }
        }
    }
}

/// `(op self x ..)` or `op`, before a body.
fn operation_with(unit: &Unit, head: u32, body: u32) -> Option<OpInfo>
    ensures { (h : Tree) (b : Tree) → Holds unit.now.names unit.now.nodes.items head h → Holds unit.now.names unit.now.nodes.items body b → IsEntry unit.now.names (operation_with h b) result }
{
    let is_last = is_nil(unit.nodes.as_slice(), body);
    match parts(unit.nodes.as_slice(), head) {
        None => operation_if(is_last, false, name_at(unit, head)),
        Some((op, params)) => operation_if(
            is_operation_row(unit, params, body),
            !is_last,
            name_at(unit, op),
        ),
    }
}

/// What stands behind the word.
fn operation_behind(unit: &Unit, rest: u32) -> Option<OpInfo>
    ensures { (t : Tree) → Holds unit.now.names unit.now.nodes.items rest t → IsEntry unit.now.names (operation_behind t) result }
{
    match parts(unit.nodes.as_slice(), rest) {
        None => None,
        Some((head, body)) => operation_with(unit, head, body),
    }
}

fn defines_operation(word: Option<Word>) -> bool
    ensures { result ≡ defines_operation word }
{
    match word {
        Some(Word::DefineOperation) => true,
        _ => false,
    }
}

/// The operation that a form defines: `(define-operation op)` or `(define-operation (op self x ..) B ..)`.
fn operation_of(unit: &Unit, form: u32) -> Option<OpInfo>
    ensures { (t : Tree) → Holds unit.now.names unit.now.nodes.items form t → IsEntry unit.now.names (operation_of t) result }
{
    match parts(unit.nodes.as_slice(), form) {
        None => None,
        Some((operator, rest)) => {
            if defines_operation(word(unit, operator)) {
                operation_behind(unit, rest)
            } else {
                None
            }
        }
    }
}

fn mark_at(found: &[bool], at: usize) -> Option<bool>
    ensures { result ≡ slice_get found.now at }
{
    found.get(at).copied()
}

/// Puts an operation last, if its name is new.
fn add(ops: &mut Vec<OpInfo>, found: &mut Vec<bool>, op: OpInfo) -> Result<(), Memory>
    ensures added { (infos : List OpInfo) → ops.old.items ≡ builtin_entries ++ infos → Marks found.old.items infos → op.name.0 < length found.old.items → OnOk result (IsAdded ops.new.items found.new.items (with_one infos op)) }
    ensures room { length found.new.items ≡ length found.old.items }
{
    let at = op.name.0 as usize;
    match mark_at(found.as_slice(), at) {
        None => Ok(()),
        Some(true) => Ok(()),
        Some(false) => {
            found[at] = true;
            ops.push(op)?;
            Ok(())
        }
    }
}

fn add_found(ops: &mut Vec<OpInfo>, found: &mut Vec<bool>, op: Option<OpInfo>) -> Result<(), Memory>
    ensures added { (infos : List OpInfo) → ops.old.items ≡ builtin_entries ++ infos → Marks found.old.items infos → IsMarked found.old.items op → OnOk result (IsAdded ops.new.items found.new.items (with_entry infos op)) }
    ensures room { length found.new.items ≡ length found.old.items }
{
    match op {
        None => Ok(()),
        Some(op) => add(ops, found, op),
    }
}

fn no_marks(alloc: Global, count: usize) -> Result<Vec<bool>, Memory>
    ensures { IfOk result (λ found. found.items ≡ replicate count false) }
{
    let found = vec![in alloc; false; count]?;
    Ok(found)
}

fn builtin_table(alloc: Global) -> Result<Vec<OpInfo>, Memory>
    ensures { IfOk result (λ ops. ops.items ≡ builtin_entries) }
{
    let mut ops = Vec::new(alloc);
    ops.push(OpInfo {
        name: Name(0),
        default: false,
    })?;
    ops.push(OpInfo {
        name: Name(1),
        default: false,
    })?;
    ops.push(OpInfo {
        name: Name(2),
        default: false,
    })?;
    Ok(ops)
}

/// The operations of the unit: the three that each unit has, then the first of each name that a form defines, in the order of the
/// forms. It refuses nothing: a form that is no row defines no operation. The only error is the want of memory.
pub fn resolve_ops(alloc: Global, unit: &Unit) -> Result<OpTable, Memory>
    ensures { (trees : List Tree) → HoldTrees unit.now.names unit.now.nodes.items unit.now.forms.items trees → IfOk result (λ table. IsTableOf unit.now.names trees table.ops.items) }
{
    let mut ops = builtin_table(alloc)?;
    let mut found = no_marks(alloc, unit.names.count() as usize)?;
    'forms: for form in &unit.forms {
        let op = operation_of(unit, *form);
        add_found(&mut ops, &mut found, op)?;
    }
    Ok(OpTable { ops })
}
