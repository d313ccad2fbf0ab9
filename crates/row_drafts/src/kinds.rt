//! The rows of characters, and of kinds that one test tells.

ghost use Rattle.std.specs.Prelude.{◌≤◌, [], ◌∷◌, OnOk};
ghost use Rattle.t_base.specs.declared.builtins.Builtin.TheVariants as builtin;
ghost use Rattle.select_rows.specs.Codes.{code_of};
ghost use Rattle.prim_holds.specs.Operands.{code_at};
ghost use Rattle.word_drafts.specs.Drafts.{IsProper, Writes};

use std::alloc::Global;
use t_base::{Memory, Var};
use word_drafts::Draft;
use word_ir::{Arith, Operand, Test};

/// The code of a character. The only error is the want of memory.
pub fn char_to_ascii(
    draft: &mut Draft,
    alloc: Global,
    a: Operand,
    t: u32,
    to: Var,
) -> Result<(), Memory>
    requires proper { IsProper draft.old }
    ensures { OnOk result (Writes (code_at (code_of builtin.CharToAscii) (a ∷ []) t to) draft.old draft.new) }
{
    draft.character(alloc, a, t)?;
    draft.make(alloc, Arith::Shift(-6), a, Operand::Word(0), to)?;
    Ok(())
}

/// The character of a code. The only error is the want of memory.
pub fn ascii_to_char(
    draft: &mut Draft,
    alloc: Global,
    a: Operand,
    t: u32,
    to: Var,
) -> Result<(), Memory>
    requires proper { IsProper draft.old }
    ensures { OnOk result (Writes (code_at (code_of builtin.AsciiToChar) (a ∷ []) t to) draft.old draft.new) }
{
    draft.fixnum(alloc, a)?;
    draft.need(alloc, Test::Below, a, Operand::Word(512), 14)?;
    draft.make(alloc, Arith::Shift(6), a, Operand::Word(0), Var(t))?;
    draft.make(
        alloc,
        Arith::Add,
        Operand::Var(Var(t)),
        Operand::Word(1),
        to,
    )?;
    Ok(())
}

/// Whether two characters are equal. The only error is the want of memory.
pub fn char_eq(
    draft: &mut Draft,
    alloc: Global,
    a: Operand,
    b: Operand,
    t: u32,
    to: Var,
) -> Result<(), Memory>
    requires proper { IsProper draft.old }
    requires few { t ≤ 4294967288 }
    ensures { OnOk result (Writes (code_at (code_of builtin.CharEq) (a ∷ b ∷ []) t to) draft.old draft.new) }
{
    draft.character(alloc, a, t)?;
    draft.character(alloc, b, t + 1)?;
    draft.truth(alloc, Test::Eq, a, b, to)?;
    Ok(())
}

/// Whether the first one is less. The only error is the want of memory.
pub fn char_lt(
    draft: &mut Draft,
    alloc: Global,
    a: Operand,
    b: Operand,
    t: u32,
    to: Var,
) -> Result<(), Memory>
    requires proper { IsProper draft.old }
    requires few { t ≤ 4294967288 }
    ensures { OnOk result (Writes (code_at (code_of builtin.CharLt) (a ∷ b ∷ []) t to) draft.old draft.new) }
{
    draft.character(alloc, a, t)?;
    draft.character(alloc, b, t + 1)?;
    draft.truth(alloc, Test::Lt, a, b, to)?;
    Ok(())
}

/// Whether a value is a character. The only error is the want of memory.
pub fn is_char(draft: &mut Draft, alloc: Global, a: Operand, t: u32, to: Var) -> Result<(), Memory>
    requires proper { IsProper draft.old }
    ensures { OnOk result (Writes (code_at (code_of builtin.IsChar) (a ∷ []) t to) draft.old draft.new) }
{
    draft.make(alloc, Arith::And, a, Operand::Word(255), Var(t))?;
    draft.truth(alloc, Test::Eq, Operand::Var(Var(t)), Operand::Word(1), to)?;
    Ok(())
}

/// Whether two values are one thing. The only error is the want of memory.
pub fn same(draft: &mut Draft, alloc: Global, a: Operand, b: Operand, to: Var) -> Result<(), Memory>
    requires proper { IsProper draft.old }
    ensures { OnOk result (Writes (code_at (code_of builtin.Eq) (a ∷ b ∷ []) 0 to) draft.old draft.new) }
{
    draft.truth(alloc, Test::Eq, a, b, to)?;
    Ok(())
}

/// Whether a value is Nil. The only error is the want of memory.
pub fn not(draft: &mut Draft, alloc: Global, a: Operand, to: Var) -> Result<(), Memory>
    requires proper { IsProper draft.old }
    ensures { OnOk result (Writes (code_at (code_of builtin.Not) (a ∷ []) 0 to) draft.old draft.new) }
{
    draft.truth(alloc, Test::Eq, a, Operand::Word(5), to)?;
    Ok(())
}

/// Whether it is a pair. The only error is the want of memory.
pub fn is_pair(draft: &mut Draft, alloc: Global, a: Operand, to: Var) -> Result<(), Memory>
    requires proper { IsProper draft.old }
    ensures { OnOk result (Writes (code_at (code_of builtin.IsPair) (a ∷ []) 0 to) draft.old draft.new) }
{
    draft.truth(alloc, Test::TagIs(3), a, Operand::Word(0), to)?;
    Ok(())
}

/// Whether it is a fixnum. The only error is the want of memory.
pub fn is_fixnum(draft: &mut Draft, alloc: Global, a: Operand, to: Var) -> Result<(), Memory>
    requires proper { IsProper draft.old }
    ensures { OnOk result (Writes (code_at (code_of builtin.IsFixnum) (a ∷ []) 0 to) draft.old draft.new) }
{
    draft.truth(alloc, Test::TagIs(0), a, Operand::Word(0), to)?;
    Ok(())
}

/// Whether it is the empty list. The only error is the want of memory.
pub fn is_null(draft: &mut Draft, alloc: Global, a: Operand, to: Var) -> Result<(), Memory>
    requires proper { IsProper draft.old }
    ensures { OnOk result (Writes (code_at (code_of builtin.IsNull) (a ∷ []) 0 to) draft.old draft.new) }
{
    draft.truth(alloc, Test::Eq, a, Operand::Word(5), to)?;
    Ok(())
}
