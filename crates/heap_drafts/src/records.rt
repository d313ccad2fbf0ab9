//! Closures' addresses and records.

ghost use Rattle.std.specs.Prelude.{[], ◌∷◌, map, IfOk, OnOk, ◌≡◌, ◌+◌, ◌*◌};
ghost use Rattle.t_base.specs.declared.shared_parts.Shared.{Shared};
ghost use Rattle.word_ir.specs.declared.operands.Operand.TheVariants as operand;
ghost use Rattle.word_ir.specs.declared.words.Arith.TheVariants as kind;
ghost use Rattle.frame_ir.specs.Values.{even};
ghost use Rattle.frame_words.specs.Layouts.{Layout};
ghost use Rattle.select_rows.specs.Macros.{of_var, word};
ghost use Rattle.select_rows.specs.Codes.{make};
ghost use Rattle.frame_heap.specs.Codes.{address_code, record_code};
ghost use Rattle.operand_drafts.specs.Places.{ArePlaces};
ghost use Rattle.word_drafts.specs.Drafts.{IsProper, Writes};
ghost use Rattle.heap_drafts.specs.Groups.{heap_record, frame_record};

use crate::sizes::even;
use frame_drafts::{bytes_of, heap_stores, push_vars, stores};
use frame_ir::Place;
use operand_drafts::{Places, word_at};
use std::alloc::Global;
use t_base::{Memory, Var};
use word_drafts::Draft;
use word_ir::{Arith, Operand, WordOp};

/// The header of a closure.
const CLOSURE: u32 = 0x1D;

fn heap_address(
    draft: &mut Draft,
    alloc: Global,
    places: &Places,
    place: u32,
    to: Var,
) -> Result<(), Memory>
    requires { IsProper draft.old }
    ensures { OnOk result (Writes (make kind.Add (of_var places.now.free) (word (4 * place + 2)) to) draft.old draft.new) }
{
    let bytes = bytes_of(place)?;
    let Some(offset) = bytes.checked_add(2) else {
        return Err(Memory);
    };
    let start = Operand::Var(Var(places.free));
    draft.make(alloc, Arith::Add, start, Operand::Word(offset), to)?;
    Ok(())
}

/// The tagged address of a closure in the youngest frame.
fn frame_address(slot: u32) -> Result<Operand, Memory>
    ensures { IfOk result (λ x. x ≡ operand.Slot (8 + 4 * even slot + 2)) }
{
    let first = even(slot)?;
    let bytes = bytes_of(first)?;
    let Some(offset) = bytes.checked_add(10) else {
        return Err(Memory);
    };
    Ok(Operand::Slot(offset))
}

/// The address of a closure that stands at a place. The only error is the want of memory.
pub(crate) fn address(
    draft: &mut Draft,
    alloc: Global,
    places: &Places,
    place: u32,
    to: Var,
    code: u32,
    at: Place,
) -> Result<(), Memory>
    requires { IsProper draft.old }
    ensures proper { OnOk result (IsProper draft.new) }
    ensures code { (l : Layout) (shared : Shared) → ArePlaces l shared places.now → OnOk result (Writes (address_code l places.now.free place to code at) draft.old draft.new) }
{
    match at {
        Place::Heap => heap_address(draft, alloc, places, place, to),
        Place::Frame(slot) => {
            let from = frame_address(slot)?;
            draft.line(WordOp::Move { to, from })?;
            Ok(())
        }
        Place::Static => {
            let from = Operand::Word(word_at(&places.closures, code));
            draft.line(WordOp::Move { to, from })?;
            Ok(())
        }
    }
}

/// The first two words of a closure's record.
fn head(alloc: Global, entry: u32) -> Result<Vec<Operand>, Memory>
    ensures { IfOk result (λ xs. xs.items ≡ word 0x1D ∷ operand.Code entry ∷ []) }
{
    let mut xs = Vec::new(alloc);
    xs.push(Operand::Word(CLOSURE))?;
    xs.push(Operand::Code(entry))?;
    Ok(xs)
}

fn variables(alloc: Global, vars: &[Var]) -> Result<Vec<Operand>, Memory>
    ensures { IfOk result (λ xs. xs.items ≡ map operand.Var vars.now) }
{
    let mut xs = Vec::new(alloc);
    push_vars(&mut xs, vars)?;
    Ok(xs)
}

/// The place behind three words.
fn behind_head(place: u32) -> Result<u32, Memory>
    ensures { IfOk result (λ next. next ≡ place + 3) }
{
    let Some(next) = place.checked_add(3) else {
        return Err(Memory);
    };
    Ok(next)
}

fn heap_record(
    draft: &mut Draft,
    alloc: Global,
    t: u32,
    place: u32,
    entry: u32,
    kept: &[Var],
) -> Result<(), Memory>
    ensures { OnOk result (Writes (heap_record t place entry kept.now) draft.old draft.new) }
{
    let first = head(alloc, entry)?;
    let others = variables(alloc, kept)?;
    let next = behind_head(place)?;
    heap_stores(draft, t, place, first.as_slice())?;
    heap_stores(draft, t, next, others.as_slice())?;
    Ok(())
}

/// The word of a frame where a closure's record starts.
fn record_start(slot: u32) -> Result<u32, Memory>
    ensures { IfOk result (λ n. n ≡ 2 + even slot) }
{
    let first = even(slot)?;
    let Some(start) = first.checked_add(2) else {
        return Err(Memory);
    };
    Ok(start)
}

fn frame_record(
    draft: &mut Draft,
    alloc: Global,
    slot: u32,
    entry: u32,
    kept: &[Var],
) -> Result<(), Memory>
    ensures { OnOk result (Writes (frame_record (2 + even slot) entry kept.now) draft.old draft.new) }
{
    let first = head(alloc, entry)?;
    let others = variables(alloc, kept)?;
    let start = record_start(slot)?;
    let next = behind_head(start)?;
    stores(draft, start, first.as_slice())?;
    stores(draft, next, others.as_slice())?;
    Ok(())
}

/// The record of a closure that stands at a place. The only error is the want of memory.
pub(crate) fn record(
    draft: &mut Draft,
    alloc: Global,
    places: &Places,
    place: u32,
    code: u32,
    kept: &[Var],
    at: Place,
) -> Result<(), Memory>
    requires { IsProper draft.old }
    ensures proper { OnOk result (IsProper draft.new) }
    ensures code { (l : Layout) (shared : Shared) → ArePlaces l shared places.now → OnOk result (Writes (record_code l places.now.free place code kept.now at) draft.old draft.new) }
{
    let entry = word_at(&places.entries, code);
    match at {
        Place::Heap => heap_record(draft, alloc, places.free, place, entry, kept),
        Place::Frame(slot) => frame_record(draft, alloc, slot, entry, kept),
        Place::Static => Ok(()),
    }
}
