//! The rows that put bytes.

ghost use Rattle.std.specs.Prelude.{◌≤◌, [], ◌∷◌, OnOk};
ghost use Rattle.t_base.specs.declared.builtins.Builtin.TheVariants as builtin;
ghost use Rattle.select_rows.specs.Codes.{code_of};
ghost use Rattle.prim_holds.specs.Operands.{code_at};
ghost use Rattle.word_drafts.specs.Drafts.{IsProper, Writes};

use std::alloc::Global;
use t_base::{Memory, Var};
use word_drafts::Draft;
use word_ir::{Operand, WordOp};

/// Puts a fixnum. The only error is the want of memory.
pub fn put_fixnum(draft: &mut Draft, alloc: Global, a: Operand, to: Var) -> Result<(), Memory>
    requires proper { IsProper draft.old }
    ensures { OnOk result (Writes (code_at (code_of builtin.PutFixnum) (a ∷ []) 0 to) draft.old draft.new) }
{
    draft.fixnum(alloc, a)?;
    draft.put(alloc, 2, a)?;
    draft.line(WordOp::Move {
        to,
        from: Operand::Word(5),
    })?;
    Ok(())
}

/// Puts a character. The only error is the want of memory.
pub fn put_char(draft: &mut Draft, alloc: Global, a: Operand, t: u32, to: Var) -> Result<(), Memory>
    requires proper { IsProper draft.old }
    ensures { OnOk result (Writes (code_at (code_of builtin.PutChar) (a ∷ []) t to) draft.old draft.new) }
{
    draft.character(alloc, a, t)?;
    draft.put(alloc, 1, a)?;
    draft.line(WordOp::Move {
        to,
        from: Operand::Word(5),
    })?;
    Ok(())
}

/// Puts the bytes of a string. The only error is the want of memory.
pub fn put_string(
    draft: &mut Draft,
    alloc: Global,
    a: Operand,
    t: u32,
    to: Var,
) -> Result<(), Memory>
    requires proper { IsProper draft.old }
    ensures { OnOk result (Writes (code_at (code_of builtin.PutString) (a ∷ []) t to) draft.old draft.new) }
{
    draft.object(alloc, a, 21, 13, t)?;
    draft.put(alloc, 5, a)?;
    draft.line(WordOp::Move {
        to,
        from: Operand::Word(5),
    })?;
    Ok(())
}

/// Puts the end of a line. The only error is the want of memory.
pub fn newline(draft: &mut Draft, alloc: Global, to: Var) -> Result<(), Memory>
    requires proper { IsProper draft.old }
    ensures { OnOk result (Writes (code_at (code_of builtin.Newline) ([]) 0 to) draft.old draft.new) }
{
    draft.put(alloc, 1, Operand::Word(2561))?;
    draft.line(WordOp::Move {
        to,
        from: Operand::Word(5),
    })?;
    Ok(())
}
