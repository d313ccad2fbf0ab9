//! What operations read, and what they put into globals and cells.

ghost use Rattle.std.specs.Prelude.{OnOk};
ghost use Rattle.frame_stacks.specs.Codes.{frame_get};
ghost use Rattle.frame_reads.specs.Codes.{cell_get, closure_get, global_get};
ghost use Rattle.frame_globals.specs.Laws.{global_change, global_set};
ghost use Rattle.frame_cells.specs.Laws.{cell_set};
ghost use Rattle.word_drafts.specs.Drafts.{IsProper, Writes};

use crate::runs::{global_at, offset_of, slot_at};
use std::alloc::Global;
use t_base::{Memory, Var};
use word_drafts::Draft;
use word_ir::{Operand, Test, WordOp};

/// The word that stands for no value.
const UNBOUND: u32 = 0xD;

/// What stands in a slot of the youngest frame. The only error is the want of memory.
pub fn frame_get(draft: &mut Draft, to: Var, slot: u32) -> Result<(), Memory>
    ensures { OnOk result (Writes (frame_get to slot) draft.old draft.new) }
{
    let base = slot_at(slot)?;
    draft.line(WordOp::Load {
        to,
        base,
        offset: 0,
    })?;
    Ok(())
}

/// What a closure or an object captured. The only error is the want of memory.
pub fn closure_get(draft: &mut Draft, to: Var, from: Var, slot: u32) -> Result<(), Memory>
    ensures { OnOk result (Writes (closure_get to from slot) draft.old draft.new) }
{
    let offset = offset_of(slot)?;
    draft.line(WordOp::Load {
        to,
        base: Operand::Var(from),
        offset,
    })?;
    Ok(())
}

/// What a cell holds. The only error is the want of memory.
pub fn cell_get(draft: &mut Draft, to: Var, cell: Var) -> Result<(), Memory>
    ensures { OnOk result (Writes (cell_get to cell) draft.old draft.new) }
{
    draft.line(WordOp::Load {
        to,
        base: Operand::Var(cell),
        offset: 2,
    })?;
    Ok(())
}

/// A cell holds another word. The only error is the want of memory.
pub fn cell_set(draft: &mut Draft, cell: Var, x: Operand) -> Result<(), Memory>
    ensures { OnOk result (Writes (cell_set cell x) draft.old draft.new) }
{
    draft.line(WordOp::Store {
        base: Operand::Var(cell),
        offset: 2,
        from: x,
    })?;
    Ok(())
}

/// A global's value, else fault 9. The only error is the want of memory.
pub fn global_get(draft: &mut Draft, alloc: Global, to: Var, global: u32) -> Result<(), Memory>
    requires { IsProper draft.old }
    ensures { OnOk result (Writes (global_get to global) draft.old draft.new) }
{
    let base = global_at(global)?;
    draft.line(WordOp::Load {
        to,
        base,
        offset: 0,
    })?;
    let exit = draft.fault(alloc, 9)?;
    let held = Operand::Var(to);
    draft.check_not(alloc, Test::Eq, held, Operand::Word(UNBOUND), exit)?;
    Ok(())
}

/// A global gets a value. The only error is the want of memory.
pub fn global_set(draft: &mut Draft, global: u32, x: Operand) -> Result<(), Memory>
    ensures { OnOk result (Writes (global_set global x) draft.old draft.new) }
{
    let base = global_at(global)?;
    draft.line(WordOp::Store {
        base,
        offset: 0,
        from: x,
    })?;
    Ok(())
}

/// A global that has a value gets another one, else fault 9. The only error is the want of memory.
pub fn global_change(
    draft: &mut Draft,
    alloc: Global,
    t: u32,
    global: u32,
    x: Operand,
) -> Result<(), Memory>
    requires { IsProper draft.old }
    ensures { OnOk result (Writes (global_change t global x) draft.old draft.new) }
{
    global_get(draft, alloc, Var(t), global)?;
    global_set(draft, global, x)?;
    Ok(())
}
