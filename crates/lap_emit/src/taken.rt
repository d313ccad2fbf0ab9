//! Which blocks' code is taken.

ghost use Rattle.std.specs.Prelude.{◌≡◌, ◌++◌, ◌∷◌, [], false, length, replicate, IfOk};
ghost use Rattle.std.specs.List.{flat_map};
ghost use Rattle.word_ir.specs.Lines.{operand_code, op_operands, end_operands, codes_of, lines_of};
ghost use Rattle.word_ir.specs.Whole.{static_code, taken_blocks};
ghost use Rattle.lap_emit.specs.Marks.{marked};

use std::alloc::Global;
use t_base::Memory;
use word_ir::{Operand, StaticWord, WordBlock, WordEnd, WordOp, Words};

#[tactic(auto, using(crate::proofs::MarkLemmas::marked_one, crate::proofs::MarkLemmas::marked_out))]
fn mark(marks: &mut Vec<bool>, block: u32)
    ensures { marks.new.items ≡ marked marks.old.items (block ∷ []) }
{
    if (block as usize) < marks.len() {
        marks[block as usize] = true;
    }
}

#[tactic(auto, using(crate::proofs::MarkLemmas::marked_none))]
fn mark_operand(marks: &mut Vec<bool>, x: Operand)
    ensures { marks.new.items ≡ marked marks.old.items (operand_code x) }
{
    match x {
        Operand::Code(block) => mark(marks, block),
        Operand::Var(_) => (),
        Operand::Word(_) => (),
        Operand::Static(_) => (),
        Operand::Slot(_) => (),
    }
}

#[tactic(auto, using(crate::proofs::MarkLemmas::marked_append, crate::proofs::MarkLemmas::marked_none))]
fn mark_two(marks: &mut Vec<bool>, a: Operand, b: Operand)
    ensures { marks.new.items ≡ marked marks.old.items (operand_code a ++ operand_code b) }
{
    mark_operand(marks, a);
    mark_operand(marks, b);
}

#[tactic(auto, using(crate::proofs::MarkLemmas::marked_append, crate::proofs::MarkLemmas::marked_none))]
fn mark_operands(marks: &mut Vec<bool>, args: &[Operand])
    ensures { marks.new.items ≡ marked marks.old.items (flat_map operand_code args.now) }
{
    for x in args {
        mark_operand(marks, *x);
    }
}

#[tactic(auto, using(crate::proofs::MarkLemmas::marked_append, crate::proofs::MarkLemmas::marked_none))]
fn mark_op(marks: &mut Vec<bool>, op: &WordOp)
    ensures { marks.new.items ≡ marked marks.old.items (flat_map operand_code (op_operands op.now)) }
{
    match op {
        WordOp::Move { from, .. } => mark_operand(marks, *from),
        WordOp::Load { base, .. } => mark_operand(marks, *base),
        WordOp::LoadByte { base, index, .. } => mark_two(marks, *base, *index),
        WordOp::Store { base, from, .. } => mark_two(marks, *base, *from),
        WordOp::Arith { a, b, .. } => mark_two(marks, *a, *b),
        WordOp::Take { bytes, .. } => mark_operand(marks, *bytes),
        WordOp::Push { .. } => (),
        WordOp::Pop { .. } => (),
        WordOp::Service { args, .. } => mark_operands(marks, args.as_slice()),
        WordOp::Reset { to } => mark_operand(marks, *to),
    }
}

#[tactic(auto, using(crate::proofs::MarkLemmas::marked_append, crate::proofs::MarkLemmas::marked_none))]
fn mark_end(marks: &mut Vec<bool>, end: &WordEnd)
    ensures { marks.new.items ≡ marked marks.old.items (flat_map operand_code (end_operands end.now)) }
{
    match end {
        WordEnd::Jump { args, .. } => mark_operands(marks, args.as_slice()),
        WordEnd::Test { a, b, .. } => mark_two(marks, *a, *b),
        WordEnd::Enter { code, args } => {
            mark_operand(marks, *code);
            mark_operands(marks, args.as_slice());
        }
        WordEnd::Stop => (),
    }
}

#[tactic(auto, using(crate::proofs::MarkLemmas::marked_append, crate::proofs::MarkLemmas::marked_none))]
fn mark_ops(marks: &mut Vec<bool>, ops: &[WordOp])
    ensures { marks.new.items ≡ marked marks.old.items (flat_map (λ o. flat_map operand_code (op_operands o)) ops.now) }
{
    for op in ops {
        mark_op(marks, op);
    }
}

#[tactic(auto, using(crate::proofs::MarkLemmas::marked_append, crate::proofs::MarkLemmas::codes_in_lines))]
fn mark_block(marks: &mut Vec<bool>, block: &WordBlock)
    ensures { marks.new.items ≡ marked marks.old.items (flat_map codes_of (lines_of block.now)) }
{
    mark_ops(marks, block.ops.as_slice());
    mark_end(marks, &block.last);
}

#[tactic(auto, using(crate::proofs::MarkLemmas::marked_append, crate::proofs::MarkLemmas::marked_none))]
fn mark_blocks(marks: &mut Vec<bool>, blocks: &[WordBlock])
    ensures { marks.new.items ≡ marked marks.old.items (flat_map (λ b. flat_map codes_of (lines_of b)) blocks.now) }
{
    for block in blocks {
        mark_block(marks, block);
    }
}

#[tactic(auto, using(crate::proofs::MarkLemmas::marked_none))]
fn mark_static(marks: &mut Vec<bool>, word: StaticWord)
    ensures { marks.new.items ≡ marked marks.old.items (static_code word) }
{
    match word {
        StaticWord::Code(block) => mark(marks, block),
        StaticWord::Word(_) => (),
        StaticWord::Static(_) => (),
    }
}

#[tactic(auto, using(crate::proofs::MarkLemmas::marked_append, crate::proofs::MarkLemmas::marked_none))]
fn mark_statics(marks: &mut Vec<bool>, statics: &[StaticWord])
    ensures { marks.new.items ≡ marked marks.old.items (flat_map static_code statics.now) }
{
    for word in statics {
        mark_static(marks, *word);
    }
}

/// A mark for each block whose code is taken.
#[tactic(auto, using(crate::proofs::MarkLemmas::marked_append, crate::proofs::MarkLemmas::marked_none))]
pub fn taken_marks(alloc: Global, words: &Words) -> Result<Vec<bool>, Memory>
    ensures { IfOk result (λ marks. marks.items ≡ marked (replicate (length words.now.blocks.items) false) (taken_blocks words.now)) }
{
    let mut marks = vec![in alloc; false; words.blocks.len()]?;
    mark_statics(&mut marks, words.statics.as_slice());
    mark_blocks(&mut marks, words.blocks.as_slice());
    Ok(marks)
}
