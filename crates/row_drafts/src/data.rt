//! The rows that make, read and change pairs, vectors, strings and symbols.

ghost use Rattle.std.specs.Prelude.{◌≤◌, [], ◌∷◌, OnOk};
ghost use Rattle.t_base.specs.declared.builtins.Builtin.TheVariants as builtin;
ghost use Rattle.select_rows.specs.Codes.{code_of};
ghost use Rattle.prim_holds.specs.Operands.{code_at};
ghost use Rattle.word_drafts.specs.Drafts.{IsProper, Writes};

use std::alloc::Global;
use t_base::{Memory, Var};
use word_drafts::Draft;
use word_ir::{Arith, Operand, WordOp};

/// A new pair. The only error is the want of memory.
pub fn cons(
    draft: &mut Draft,
    alloc: Global,
    a: Operand,
    b: Operand,
    t: u32,
    to: Var,
) -> Result<(), Memory>
    requires proper { IsProper draft.old }
    ensures { OnOk result (Writes (code_at (code_of builtin.Cons) (a ∷ b ∷ []) t to) draft.old draft.new) }
{
    draft.room(alloc, t, 8)?;
    draft.line(WordOp::Store {
        base: Operand::Var(Var(t)),
        offset: 0,
        from: a,
    })?;
    draft.line(WordOp::Store {
        base: Operand::Var(Var(t)),
        offset: 4,
        from: b,
    })?;
    draft.make(
        alloc,
        Arith::Add,
        Operand::Var(Var(t)),
        Operand::Word(3),
        to,
    )?;
    Ok(())
}

/// The first part of a pair. The only error is the want of memory.
pub fn car(draft: &mut Draft, alloc: Global, a: Operand, to: Var) -> Result<(), Memory>
    requires proper { IsProper draft.old }
    ensures { OnOk result (Writes (code_at (code_of builtin.Car) (a ∷ []) 0 to) draft.old draft.new) }
{
    draft.pair(alloc, a)?;
    draft.line(WordOp::Load {
        to: to,
        base: a,
        offset: -3,
    })?;
    Ok(())
}

/// The second part of a pair. The only error is the want of memory.
pub fn cdr(draft: &mut Draft, alloc: Global, a: Operand, to: Var) -> Result<(), Memory>
    requires proper { IsProper draft.old }
    ensures { OnOk result (Writes (code_at (code_of builtin.Cdr) (a ∷ []) 0 to) draft.old draft.new) }
{
    draft.pair(alloc, a)?;
    draft.line(WordOp::Load {
        to: to,
        base: a,
        offset: 1,
    })?;
    Ok(())
}

/// Changes the first part of a pair. The only error is the want of memory.
pub fn set_car(
    draft: &mut Draft,
    alloc: Global,
    a: Operand,
    b: Operand,
    to: Var,
) -> Result<(), Memory>
    requires proper { IsProper draft.old }
    ensures { OnOk result (Writes (code_at (code_of builtin.SetCar) (a ∷ b ∷ []) 0 to) draft.old draft.new) }
{
    draft.pair(alloc, a)?;
    draft.line(WordOp::Store {
        base: a,
        offset: -3,
        from: b,
    })?;
    draft.line(WordOp::Move { to, from: b })?;
    Ok(())
}

/// Changes the second part of a pair. The only error is the want of memory.
pub fn set_cdr(
    draft: &mut Draft,
    alloc: Global,
    a: Operand,
    b: Operand,
    to: Var,
) -> Result<(), Memory>
    requires proper { IsProper draft.old }
    ensures { OnOk result (Writes (code_at (code_of builtin.SetCdr) (a ∷ b ∷ []) 0 to) draft.old draft.new) }
{
    draft.pair(alloc, a)?;
    draft.line(WordOp::Store {
        base: a,
        offset: 1,
        from: b,
    })?;
    draft.line(WordOp::Move { to, from: b })?;
    Ok(())
}

/// The length of a vector. The only error is the want of memory.
pub fn vector_length(
    draft: &mut Draft,
    alloc: Global,
    a: Operand,
    t: u32,
    to: Var,
) -> Result<(), Memory>
    requires proper { IsProper draft.old }
    ensures { OnOk result (Writes (code_at (code_of builtin.VectorLength) (a ∷ []) t to) draft.old draft.new) }
{
    draft.object(alloc, a, 17, 5, t)?;
    draft.line(WordOp::Load {
        to: to,
        base: a,
        offset: 2,
    })?;
    Ok(())
}

/// An element of a vector. The only error is the want of memory.
pub fn vref(
    draft: &mut Draft,
    alloc: Global,
    a: Operand,
    b: Operand,
    t: u32,
    to: Var,
) -> Result<(), Memory>
    requires proper { IsProper draft.old }
    requires few { t ≤ 4294967288 }
    ensures { OnOk result (Writes (code_at (code_of builtin.Vref) (a ∷ b ∷ []) t to) draft.old draft.new) }
{
    draft.object(alloc, a, 17, 5, t)?;
    draft.fixnum(alloc, b)?;
    draft.line(WordOp::Load {
        to: Var(t + 1),
        base: a,
        offset: 2,
    })?;
    draft.index(alloc, b, Operand::Var(Var(t + 1)))?;
    draft.make(alloc, Arith::Add, a, b, Var(t + 2))?;
    draft.line(WordOp::Load {
        to: to,
        base: Operand::Var(Var(t + 2)),
        offset: 6,
    })?;
    Ok(())
}

/// Changes an element of a vector. The only error is the want of memory.
pub fn set_vref(
    draft: &mut Draft,
    alloc: Global,
    a: Operand,
    b: Operand,
    d: Operand,
    t: u32,
    to: Var,
) -> Result<(), Memory>
    requires proper { IsProper draft.old }
    requires few { t ≤ 4294967288 }
    ensures { OnOk result (Writes (code_at (code_of builtin.SetVref) (a ∷ b ∷ d ∷ []) t to) draft.old draft.new) }
{
    draft.object(alloc, a, 17, 5, t)?;
    draft.fixnum(alloc, b)?;
    draft.line(WordOp::Load {
        to: Var(t + 1),
        base: a,
        offset: 2,
    })?;
    draft.index(alloc, b, Operand::Var(Var(t + 1)))?;
    draft.make(alloc, Arith::Add, a, b, Var(t + 2))?;
    draft.line(WordOp::Store {
        base: Operand::Var(Var(t + 2)),
        offset: 6,
        from: d,
    })?;
    draft.line(WordOp::Move { to, from: d })?;
    Ok(())
}

/// The length of a string. The only error is the want of memory.
pub fn string_length(
    draft: &mut Draft,
    alloc: Global,
    a: Operand,
    t: u32,
    to: Var,
) -> Result<(), Memory>
    requires proper { IsProper draft.old }
    ensures { OnOk result (Writes (code_at (code_of builtin.StringLength) (a ∷ []) t to) draft.old draft.new) }
{
    draft.object(alloc, a, 21, 13, t)?;
    draft.line(WordOp::Load {
        to: to,
        base: a,
        offset: 2,
    })?;
    Ok(())
}

/// A character of a string. The only error is the want of memory.
pub fn string_elt(
    draft: &mut Draft,
    alloc: Global,
    a: Operand,
    b: Operand,
    t: u32,
    to: Var,
) -> Result<(), Memory>
    requires proper { IsProper draft.old }
    requires few { t ≤ 4294967288 }
    ensures { OnOk result (Writes (code_at (code_of builtin.StringElt) (a ∷ b ∷ []) t to) draft.old draft.new) }
{
    draft.object(alloc, a, 21, 13, t)?;
    draft.fixnum(alloc, b)?;
    draft.line(WordOp::Load {
        to: Var(t + 1),
        base: a,
        offset: 2,
    })?;
    draft.index(alloc, b, Operand::Var(Var(t + 1)))?;
    draft.make(alloc, Arith::Shift(-2), b, Operand::Word(0), Var(t + 2))?;
    draft.line(WordOp::LoadByte {
        to: Var(t + 3),
        base: a,
        index: Operand::Var(Var(t + 2)),
        offset: 6,
    })?;
    draft.make(
        alloc,
        Arith::Shift(8),
        Operand::Var(Var(t + 3)),
        Operand::Word(0),
        Var(t + 4),
    )?;
    draft.make(
        alloc,
        Arith::Add,
        Operand::Var(Var(t + 4)),
        Operand::Word(1),
        to,
    )?;
    Ok(())
}

/// The print name of a symbol. The only error is the want of memory.
pub fn symbol_to_string(
    draft: &mut Draft,
    alloc: Global,
    a: Operand,
    t: u32,
    to: Var,
) -> Result<(), Memory>
    requires proper { IsProper draft.old }
    ensures { OnOk result (Writes (code_at (code_of builtin.SymbolToString) (a ∷ []) t to) draft.old draft.new) }
{
    draft.object(alloc, a, 25, 16, t)?;
    draft.line(WordOp::Load {
        to: to,
        base: a,
        offset: 6,
    })?;
    Ok(())
}
