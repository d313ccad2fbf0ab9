//! Cells and objects, made.

ghost use Rattle.std.specs.Prelude.{◌≡◌, [], ◌∷◌, map, length, IfOk, OnOk};
ghost use Rattle.t_base.specs.declared.shared_parts.Shared.{Shared};
ghost use Rattle.word_ir.specs.declared.operands.Operand.TheVariants as operand;
ghost use Rattle.frame_words.specs.Layouts.{Layout};
ghost use Rattle.select_rows.specs.Macros.{word};
ghost use Rattle.prim_holds.specs.Operands.{operand_of};
ghost use Rattle.frame_things.specs.Codes.{make_cell, make_object, make_thing};
ghost use Rattle.operand_drafts.specs.Places.{ArePlaces};
ghost use Rattle.word_drafts.specs.Drafts.{IsProper, Writes};

use crate::sizes::record_words;
use cps_ir::Arg;
use frame_drafts::{bytes_of, heap_stores, push_vars};
use operand_drafts::{Places, operand, word_at};
use std::alloc::Global;
use t_base::{Memory, Var};
use word_drafts::Draft;
use word_ir::{Arith, Operand};

/// The header of a cell.
const CELL: u32 = 0x35;
/// The header of an object.
const OBJECT: u32 = 0x21;

/// So many words of the heap, the first of which are stored. The only error is the want of memory.
fn thing(
    draft: &mut Draft,
    alloc: Global,
    t: u32,
    count: u32,
    xs: &[Operand],
    to: Var,
) -> Result<(), Memory>
    requires { IsProper draft.old }
    ensures { OnOk result (Writes (make_thing t count xs.now to) draft.old draft.new) }
{
    let bytes = bytes_of(count)?;
    draft.room(alloc, t, bytes)?;
    heap_stores(draft, t, 0, xs)?;
    let start = Operand::Var(Var(t));
    draft.make(alloc, Arith::Add, start, Operand::Word(2), to)?;
    Ok(())
}

/// A new cell. The only error is the want of memory.
pub fn cell(draft: &mut Draft, alloc: Global, t: u32, to: Var, x: Operand) -> Result<(), Memory>
    requires { IsProper draft.old }
    ensures { OnOk result (Writes (make_cell t to x) draft.old draft.new) }
{
    let mut xs = Vec::new(alloc);
    xs.push(Operand::Word(CELL))?;
    xs.push(x)?;
    thing(draft, alloc, t, 2, xs.as_slice(), to)?;
    Ok(())
}

/// The words of an object that are stored.
fn object_words(
    alloc: Global,
    methods: u32,
    x: Operand,
    kept: &[Var],
) -> Result<Vec<Operand>, Memory>
    ensures { IfOk result (λ xs. xs.items ≡ word 0x21 ∷ word methods ∷ x ∷ map operand.Var kept.now) }
{
    let mut xs = Vec::new(alloc);
    xs.push(Operand::Word(OBJECT))?;
    xs.push(Operand::Word(methods))?;
    xs.push(x)?;
    push_vars(&mut xs, kept)?;
    Ok(xs)
}

/// A new object with the methods of a template. The only error is the want of memory.
pub fn object(
    draft: &mut Draft,
    alloc: Global,
    places: &Places,
    to: Var,
    template: u32,
    proc: Arg,
    kept: &[Var],
) -> Result<(), Memory>
    requires { IsProper draft.old }
    ensures proper { OnOk result (IsProper draft.new) }
    ensures code { (l : Layout) (shared : Shared) → ArePlaces l shared places.now → OnOk result (Writes (make_object l places.now.free to template (operand_of l shared proc) kept.now) draft.old draft.new) }
{
    let methods = word_at(&places.templates, template);
    let xs = object_words(alloc, methods, operand(places, proc), kept)?;
    let count = record_words(kept.len())?;
    thing(draft, alloc, places.free, count, xs.as_slice(), to)?;
    Ok(())
}
