//! The rows of arithmetic and comparison.

ghost use Rattle.std.specs.Prelude.{◌≤◌, [], ◌∷◌, OnOk};
ghost use Rattle.t_base.specs.declared.builtins.Builtin.TheVariants as builtin;
ghost use Rattle.select_rows.specs.Codes.{code_of};
ghost use Rattle.prim_holds.specs.Operands.{code_at};
ghost use Rattle.word_drafts.specs.Drafts.{IsProper, Writes};

use std::alloc::Global;
use t_base::{Memory, Var};
use word_drafts::Draft;
use word_ir::{Arith, Operand, Test};

/// The sum of two fixnums. The only error is the want of memory.
pub fn add(draft: &mut Draft, alloc: Global, a: Operand, b: Operand, to: Var) -> Result<(), Memory>
    requires proper { IsProper draft.old }
    ensures { OnOk result (Writes (code_at (code_of builtin.Add) (a ∷ b ∷ []) 0 to) draft.old draft.new) }
{
    draft.fixnum(alloc, a)?;
    draft.fixnum(alloc, b)?;
    draft.number(alloc, Arith::Add, a, b, to)?;
    Ok(())
}

/// Their difference. The only error is the want of memory.
pub fn sub(draft: &mut Draft, alloc: Global, a: Operand, b: Operand, to: Var) -> Result<(), Memory>
    requires proper { IsProper draft.old }
    ensures { OnOk result (Writes (code_at (code_of builtin.Sub) (a ∷ b ∷ []) 0 to) draft.old draft.new) }
{
    draft.fixnum(alloc, a)?;
    draft.fixnum(alloc, b)?;
    draft.number(alloc, Arith::Sub, a, b, to)?;
    Ok(())
}

/// Their product. The only error is the want of memory.
pub fn mul(
    draft: &mut Draft,
    alloc: Global,
    a: Operand,
    b: Operand,
    t: u32,
    to: Var,
) -> Result<(), Memory>
    requires proper { IsProper draft.old }
    ensures { OnOk result (Writes (code_at (code_of builtin.Mul) (a ∷ b ∷ []) t to) draft.old draft.new) }
{
    draft.fixnum(alloc, a)?;
    draft.fixnum(alloc, b)?;
    draft.make(alloc, Arith::Shift(-2), a, Operand::Word(0), Var(t))?;
    draft.number(alloc, Arith::Mul, Operand::Var(Var(t)), b, to)?;
    Ok(())
}

/// Their quotient. The only error is the want of memory.
pub fn quotient(
    draft: &mut Draft,
    alloc: Global,
    a: Operand,
    b: Operand,
    t: u32,
    to: Var,
) -> Result<(), Memory>
    requires proper { IsProper draft.old }
    ensures { OnOk result (Writes (code_at (code_of builtin.Quotient) (a ∷ b ∷ []) t to) draft.old draft.new) }
{
    draft.fixnum(alloc, a)?;
    draft.fixnum(alloc, b)?;
    draft.unless_zero(alloc, b)?;
    draft.make(alloc, Arith::Quotient, a, b, Var(t))?;
    draft.number(
        alloc,
        Arith::Shift(2),
        Operand::Var(Var(t)),
        Operand::Word(0),
        to,
    )?;
    Ok(())
}

/// What is left by it. The only error is the want of memory.
pub fn remainder(
    draft: &mut Draft,
    alloc: Global,
    a: Operand,
    b: Operand,
    to: Var,
) -> Result<(), Memory>
    requires proper { IsProper draft.old }
    ensures { OnOk result (Writes (code_at (code_of builtin.Remainder) (a ∷ b ∷ []) 0 to) draft.old draft.new) }
{
    draft.fixnum(alloc, a)?;
    draft.fixnum(alloc, b)?;
    draft.unless_zero(alloc, b)?;
    draft.make(alloc, Arith::Remainder, a, b, to)?;
    Ok(())
}

/// One more. The only error is the want of memory.
pub fn inc(draft: &mut Draft, alloc: Global, a: Operand, to: Var) -> Result<(), Memory>
    requires proper { IsProper draft.old }
    ensures { OnOk result (Writes (code_at (code_of builtin.Inc) (a ∷ []) 0 to) draft.old draft.new) }
{
    draft.fixnum(alloc, a)?;
    draft.number(alloc, Arith::Add, a, Operand::Word(4), to)?;
    Ok(())
}

/// One less. The only error is the want of memory.
pub fn dec(draft: &mut Draft, alloc: Global, a: Operand, to: Var) -> Result<(), Memory>
    requires proper { IsProper draft.old }
    ensures { OnOk result (Writes (code_at (code_of builtin.Dec) (a ∷ []) 0 to) draft.old draft.new) }
{
    draft.fixnum(alloc, a)?;
    draft.number(alloc, Arith::Sub, a, Operand::Word(4), to)?;
    Ok(())
}

/// Whether two fixnums are equal. The only error is the want of memory.
pub fn num_eq(
    draft: &mut Draft,
    alloc: Global,
    a: Operand,
    b: Operand,
    to: Var,
) -> Result<(), Memory>
    requires proper { IsProper draft.old }
    ensures { OnOk result (Writes (code_at (code_of builtin.NumEq) (a ∷ b ∷ []) 0 to) draft.old draft.new) }
{
    draft.fixnum(alloc, a)?;
    draft.fixnum(alloc, b)?;
    draft.truth(alloc, Test::Eq, a, b, to)?;
    Ok(())
}

/// Whether the first one is less. The only error is the want of memory.
pub fn num_lt(
    draft: &mut Draft,
    alloc: Global,
    a: Operand,
    b: Operand,
    to: Var,
) -> Result<(), Memory>
    requires proper { IsProper draft.old }
    ensures { OnOk result (Writes (code_at (code_of builtin.NumLt) (a ∷ b ∷ []) 0 to) draft.old draft.new) }
{
    draft.fixnum(alloc, a)?;
    draft.fixnum(alloc, b)?;
    draft.truth(alloc, Test::Lt, a, b, to)?;
    Ok(())
}

/// Whether it is greater. The only error is the want of memory.
pub fn num_gt(
    draft: &mut Draft,
    alloc: Global,
    a: Operand,
    b: Operand,
    to: Var,
) -> Result<(), Memory>
    requires proper { IsProper draft.old }
    ensures { OnOk result (Writes (code_at (code_of builtin.NumGt) (a ∷ b ∷ []) 0 to) draft.old draft.new) }
{
    draft.fixnum(alloc, a)?;
    draft.fixnum(alloc, b)?;
    draft.truth(alloc, Test::Lt, b, a, to)?;
    Ok(())
}

/// Whether it is at most the second one. The only error is the want of memory.
pub fn num_le(
    draft: &mut Draft,
    alloc: Global,
    a: Operand,
    b: Operand,
    to: Var,
) -> Result<(), Memory>
    requires proper { IsProper draft.old }
    ensures { OnOk result (Writes (code_at (code_of builtin.NumLe) (a ∷ b ∷ []) 0 to) draft.old draft.new) }
{
    draft.fixnum(alloc, a)?;
    draft.fixnum(alloc, b)?;
    draft.truth(alloc, Test::Le, a, b, to)?;
    Ok(())
}

/// Whether it is at least that. The only error is the want of memory.
pub fn num_ge(
    draft: &mut Draft,
    alloc: Global,
    a: Operand,
    b: Operand,
    to: Var,
) -> Result<(), Memory>
    requires proper { IsProper draft.old }
    ensures { OnOk result (Writes (code_at (code_of builtin.NumGe) (a ∷ b ∷ []) 0 to) draft.old draft.new) }
{
    draft.fixnum(alloc, a)?;
    draft.fixnum(alloc, b)?;
    draft.truth(alloc, Test::Le, b, a, to)?;
    Ok(())
}

/// Whether a fixnum is 0. The only error is the want of memory.
pub fn is_zero(draft: &mut Draft, alloc: Global, a: Operand, to: Var) -> Result<(), Memory>
    requires proper { IsProper draft.old }
    ensures { OnOk result (Writes (code_at (code_of builtin.IsZero) (a ∷ []) 0 to) draft.old draft.new) }
{
    draft.fixnum(alloc, a)?;
    draft.truth(alloc, Test::Eq, a, Operand::Word(0), to)?;
    Ok(())
}

/// Whether it is less. The only error is the want of memory.
pub fn is_negative(draft: &mut Draft, alloc: Global, a: Operand, to: Var) -> Result<(), Memory>
    requires proper { IsProper draft.old }
    ensures { OnOk result (Writes (code_at (code_of builtin.IsNegative) (a ∷ []) 0 to) draft.old draft.new) }
{
    draft.fixnum(alloc, a)?;
    draft.truth(alloc, Test::Lt, a, Operand::Word(0), to)?;
    Ok(())
}

/// Whether it is greater. The only error is the want of memory.
pub fn is_positive(draft: &mut Draft, alloc: Global, a: Operand, to: Var) -> Result<(), Memory>
    requires proper { IsProper draft.old }
    ensures { OnOk result (Writes (code_at (code_of builtin.IsPositive) (a ∷ []) 0 to) draft.old draft.new) }
{
    draft.fixnum(alloc, a)?;
    draft.truth(alloc, Test::Lt, Operand::Word(0), a, to)?;
    Ok(())
}
