//! Frames are pushed and popped.

ghost use Rattle.std.specs.Prelude.{◌≡◌, ◌++◌, map, OnOk};
ghost use Rattle.word_ir.specs.declared.operands.Operand.TheVariants as operand;
ghost use Rattle.frame_stacks.specs.Codes.{pop_frame, push_frame};
ghost use Rattle.word_drafts.specs.Drafts.{IsProper, Writes};

use crate::runs::{bytes_of, stores};
use std::alloc::Global;
use t_base::{Memory, Var};
use word_drafts::Draft;
use word_ir::{Operand, WordOp};

/// Variables as operands, behind others. The only error is the want of memory.
pub fn push_vars(xs: &mut Vec<Operand>, vars: &[Var]) -> Result<(), Memory>
    ensures { OnOk result (xs.new.items ≡ xs.old.items ++ map operand.Var vars.now) }
{
    for v in vars {
        xs.push(Operand::Var(*v))?;
    }
    Ok(())
}

/// A frame of so many words, with the way back and the variables that it keeps. The only error is the want of memory.
pub fn push_frame(
    draft: &mut Draft,
    alloc: Global,
    back: u32,
    count: u32,
    kept: &[Var],
) -> Result<(), Memory>
    requires { IsProper draft.old }
    ensures { OnOk result (Writes (push_frame back count (map operand.Var kept.now)) draft.old draft.new) }
{
    let bytes = bytes_of(count)?;
    let mut xs = Vec::new(alloc);
    xs.push(Operand::Code(back))?;
    xs.push(Operand::Slot(bytes))?;
    push_vars(&mut xs, kept)?;
    let full = draft.full(alloc, Operand::Word(bytes), 1)?;
    draft.push(count, full)?;
    stores(draft, 0, xs.as_slice())?;
    Ok(())
}

/// The youngest frame is popped. The only error is the want of memory.
pub fn pop_frame(draft: &mut Draft, t: u32) -> Result<(), Memory>
    ensures { OnOk result (Writes (pop_frame t) draft.old draft.new) }
{
    draft.line(WordOp::Load {
        to: Var(t),
        base: Operand::Slot(4),
        offset: 0,
    })?;
    draft.line(WordOp::Reset {
        to: Operand::Var(Var(t)),
    })?;
    Ok(())
}
