//! Whole programs.

ghost use Rattle.std.specs.Prelude.{◌≡◌, ◌+◌, ◌≤◌, ◌^◌, length, ◌∷◌, [], ◌++◌, slice_get, Some, IfOk, OnOk};
ghost use Rattle.word_ir.specs.WholePlaced.{IsWholePlaced};
ghost use Rattle.parallel_moves.specs.Moves.{AreParallel};
ghost use Rattle.std.specs.List.{flat_map};
ghost use Rattle.lap_items.specs.Operations.{op_items};
ghost use Rattle.lap_items.specs.Ends.{end_moves};
ghost use Rattle.lap_items.specs.Program.{first_moves, ops_items, CanMove, IsEmitted};
ghost use Rattle.m68020_code.specs.declared.instr.Width.TheVariants.{Long};
ghost use Rattle.m68020_asm.specs.Items.{address, code_start, CanAssemble};
ghost use Rattle.lap_shapes.specs.Sizes.{most_bytes};
ghost use Rattle.lap_emit.specs.Marks.{AreMarks};
ghost use Rattle.lap_emit.specs.Written.{AddsBlock, AddsBlocks};

use crate::ends::{CONVENTION, homes_of_params, is_taken, push_end};
use crate::moves::{moves_between, push_at_once};
use crate::taken::taken_marks;
use m68020_asm::Item;
use operation_items::operands::push_item;
use operation_items::operations::push_op;
use parallel_moves::Move;
use std::alloc::Global;
use t_base::Memory;
use word_ir::{Home, Placed, WordBlock, WordOp};

#[tactic(auto, unfolding(lap_items::specs::Program::first_moves))]
fn first_moves(
    alloc: Global,
    marks: &[bool],
    placed: &Placed,
    b: u32,
    block: &WordBlock,
) -> Result<Vec<Move>, Memory>
    requires { AreMarks marks.now placed.now.words }
    ensures { IfOk result (λ moves. moves.items ≡ first_moves placed.now b block.now) }
{
    if is_taken(marks, placed, b) {
        let places = homes_of_params(alloc, placed.at.as_slice(), block)?;
        moves_between(alloc, &CONVENTION, places.as_slice())
    } else {
        Ok(Vec::new(alloc))
    }
}

fn push_ops(items: &mut Vec<Item>, homes: &[Home], ops: &[WordOp]) -> Result<(), Memory>
    ensures { OnOk result (items.new.items ≡ items.old.items ++ flat_map (op_items homes.now) ops.now) }
{
    for op in ops {
        push_op(items, homes, op)?;
    }
    Ok(())
}

fn push_block(
    alloc: Global,
    items: &mut Vec<Item>,
    marks: &[bool],
    placed: &Placed,
    b: u32,
    block: &WordBlock,
) -> Result<(), Memory>
    requires marks { AreMarks marks.now placed.now.words }
    requires enters { AreParallel (first_moves placed.now b block.now) }
    requires leaves { AreParallel (end_moves placed.now block.now.last) }
    ensures { OnOk result (AddsBlock placed.now b block.now items.old.items items.new.items) }
{
    push_item(items, Item::Label(b))?;
    let moves = first_moves(alloc, marks, placed, b, block)?;
    push_at_once(alloc, items, moves.as_slice())?;
    push_ops(items, placed.at.as_slice(), block.ops.as_slice())?;
    push_end(alloc, items, marks, placed, &block.last)
}

/// The label of a block; there are as many labels as numbers of 32 bits.
fn label_of(block: usize) -> Result<u32, Memory>
    ensures { IfOk result (λ label. label ≡ block) }
{
    if block <= u32::MAX as usize {
        Ok(block as u32)
    } else {
        Err(Memory)
    }
}

fn push_blocks(
    alloc: Global,
    items: &mut Vec<Item>,
    marks: &[bool],
    placed: &Placed,
) -> Result<(), Memory>
    requires marks { AreMarks marks.now placed.now.words }
    requires moves { CanMove placed.now }
    ensures { OnOk result (AddsBlocks placed.now placed.now.words.blocks.items items.old.items items.new.items) }
{
    'each: for n in 0..placed.words.blocks.len() {
        let b = label_of(n)?;
        push_block(alloc, items, marks, placed, b, &placed.words.blocks[n])?;
    }
    Ok(())
}

#[tactic(auto, using(lap_items::proofs::Distinct::whole_can_move))]
fn emit_items(alloc: Global, placed: &Placed) -> Result<Vec<Item>, Memory>
    requires { IsWholePlaced placed.now }
    ensures { IfOk result (λ items. IsEmitted placed.now items.items) }
{
    let marks = taken_marks(alloc, &placed.words)?;
    let mut items = Vec::new(alloc);
    push_blocks(alloc, &mut items, marks.as_slice(), placed)?;
    Ok(items)
}

/// The items of a program, which are a list by its blocks: each with its number as its label, the moves of its parameters where its code
/// is taken, its operations, and its end. `assemble` takes them where they are short enough, as they are when the table of `lap_shapes`
/// gives no more than 2^28 bytes.
///
/// It takes time linear in the program. The only error is the want of memory, which also stands for more blocks than numbers of labels.
pub fn emit(alloc: Global, placed: &Placed) -> Result<Vec<Item>, Memory>
    requires { IsWholePlaced placed.now }
    ensures items { IfOk result (λ items. IsEmitted placed.now items.items) }
    ensures assembles { IfOk result (λ items. address items.items (λ _. Long) (length items.items) ≤ code_start + 2 ^ 28 → CanAssemble items.items) }
    ensures bytes { IfOk result (λ items. address items.items (λ _. Long) (length items.items) ≤ code_start + most_bytes placed.now.words) }
{
    emit_items(alloc, placed)
}
