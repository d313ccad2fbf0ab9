//! Closures that stand directly behind each other, made at once.

ghost use Rattle.std.specs.Prelude.{IfOk, OnOk, ◌≡◌, ◌+◌};
ghost use Rattle.t_base.specs.declared.shared_parts.Shared.{Shared};
ghost use Rattle.frame_ir.specs.Groups.{makings};
ghost use Rattle.frame_words.specs.Layouts.{Layout};
ghost use Rattle.frame_heap.specs.Codes.{addresses, group_words, make_group, records, take_words, words_at};
ghost use Rattle.operand_drafts.specs.Places.{ArePlaces};
ghost use Rattle.word_drafts.specs.Drafts.{IsProper, Writes};
ghost use Rattle.heap_drafts.specs.Groups.{is_closure, IsGroup, Advances, AddressStep, RecordStep};

use crate::records::{address, record};
use crate::sizes::record_words;
use frame_drafts::bytes_of;
use frame_ir::{FrameOp, Place};
use operand_drafts::Places;
use std::alloc::Global;
use t_base::Memory;
use word_drafts::Draft;

fn is_closure(op: &FrameOp) -> bool
    ensures { result ≡ is_closure op.now }
{
    match op {
        FrameOp::Closure { .. } => true,
        _ => false,
    }
}

/// How many closures stand at the head of some operations.
pub fn closures(ops: &[FrameOp]) -> usize
    ensures { IsGroup ops.now result }
{
    for place in 0..ops.len() {
        if !is_closure(&ops[place]) {
            return place;
        }
    }
    ops.len()
}

/// The words of the heap that a closure takes.
fn words_at(at: Place, captured: usize) -> Result<u32, Memory>
    ensures { IfOk result (λ n. n ≡ words_at at captured) }
{
    match at {
        Place::Heap => record_words(captured),
        Place::Frame(_) => Ok(0),
        Place::Static => Ok(0),
    }
}

/// The place on the heap behind a closure's record.
fn behind(at: Place, captured: usize, place: u32) -> Result<u32, Memory>
    ensures { IfOk result (λ n. n ≡ place + words_at at captured) }
{
    let words = words_at(at, captured)?;
    let Some(next) = place.checked_add(words) else {
        return Err(Memory);
    };
    Ok(next)
}

fn with_words(op: &FrameOp, place: u32) -> Result<u32, Memory>
    ensures { IfOk result (Advances op.now place) }
{
    match op {
        FrameOp::Closure { kept, at, .. } => {
            let next = behind(*at, kept.as_slice().len(), place)?;
            Ok(next)
        }
        _ => Err(Memory),
    }
}

/// The words of the heap that the closures of a group take.
fn group_words(group: &[FrameOp]) -> Result<u32, Memory>
    ensures { IfOk result (λ n. n ≡ group_words (makings group.now)) }
{
    let mut words = 0u32;
    for op in group {
        let next = with_words(op, words)?;
        words = next;
    }
    Ok(words)
}

/// So many words of the heap, if any are wanted.
fn take_words(draft: &mut Draft, alloc: Global, t: u32, words: u32) -> Result<(), Memory>
    requires { IsProper draft.old }
    ensures { OnOk result (Writes (take_words t words) draft.old draft.new) }
{
    if words == 0 {
        return Ok(());
    }
    let bytes = bytes_of(words)?;
    draft.room(alloc, t, bytes)?;
    Ok(())
}

fn one_address(
    draft: &mut Draft,
    alloc: Global,
    places: &Places,
    place: u32,
    op: &FrameOp,
) -> Result<u32, Memory>
    requires { IsProper draft.old }
    ensures proper { OnOk result (IsProper draft.new) }
    ensures code { (l : Layout) (shared : Shared) → ArePlaces l shared places.now → IfOk result (λ next. AddressStep l places.now.free op.now place next draft.old draft.new) }
{
    match op {
        FrameOp::Closure { to, code, kept, at } => {
            let next = behind(*at, kept.as_slice().len(), place)?;
            address(draft, alloc, places, place, *to, *code, *at)?;
            Ok(next)
        }
        _ => Err(Memory),
    }
}

/// The addresses of all closures of a group.
fn addresses(
    draft: &mut Draft,
    alloc: Global,
    places: &Places,
    group: &[FrameOp],
) -> Result<(), Memory>
    requires { IsProper draft.old }
    ensures proper { OnOk result (IsProper draft.new) }
    ensures code { (l : Layout) (shared : Shared) → ArePlaces l shared places.now → OnOk result (Writes (addresses l places.now.free 0 (makings group.now)) draft.old draft.new) }
{
    let mut place = 0u32;
    for op in group {
        let next = one_address(draft, alloc, places, place, op)?;
        place = next;
    }
    Ok(())
}

fn one_record(
    draft: &mut Draft,
    alloc: Global,
    places: &Places,
    place: u32,
    op: &FrameOp,
) -> Result<u32, Memory>
    requires { IsProper draft.old }
    ensures proper { OnOk result (IsProper draft.new) }
    ensures code { (l : Layout) (shared : Shared) → ArePlaces l shared places.now → IfOk result (λ next. RecordStep l places.now.free op.now place next draft.old draft.new) }
{
    match op {
        FrameOp::Closure { code, kept, at, .. } => {
            let next = behind(*at, kept.as_slice().len(), place)?;
            record(draft, alloc, places, place, *code, kept.as_slice(), *at)?;
            Ok(next)
        }
        _ => Err(Memory),
    }
}

/// The records of all closures of a group.
fn records(
    draft: &mut Draft,
    alloc: Global,
    places: &Places,
    group: &[FrameOp],
) -> Result<(), Memory>
    requires { IsProper draft.old }
    ensures proper { OnOk result (IsProper draft.new) }
    ensures code { (l : Layout) (shared : Shared) → ArePlaces l shared places.now → OnOk result (Writes (records l places.now.free 0 (makings group.now)) draft.old draft.new) }
{
    let mut place = 0u32;
    for op in group {
        let next = one_record(draft, alloc, places, place, op)?;
        place = next;
    }
    Ok(())
}

/// A group of closures is made. The only error is the want of memory.
pub fn group(
    draft: &mut Draft,
    alloc: Global,
    places: &Places,
    group: &[FrameOp],
) -> Result<(), Memory>
    requires { IsProper draft.old }
    ensures proper { OnOk result (IsProper draft.new) }
    ensures code { (l : Layout) (shared : Shared) → ArePlaces l shared places.now → OnOk result (Writes (make_group l places.now.free (makings group.now)) draft.old draft.new) }
{
    let words = group_words(group)?;
    take_words(draft, alloc, places.free, words)?;
    addresses(draft, alloc, places, group)?;
    records(draft, alloc, places, group)?;
    Ok(())
}
