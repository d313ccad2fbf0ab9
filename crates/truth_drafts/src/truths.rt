//! Rows of truths.

ghost use Rattle.std.specs.Prelude.{[], ◌∷◌, OnOk, pos};
ghost use Rattle.word_ir.specs.declared.operands.Operand.TheVariants as operand;
ghost use Rattle.word_ir.specs.declared.words.Test.TheVariants as test;
ghost use Rattle.word_ir.specs.declared.words.WordOp.TheVariants as op;
ghost use Rattle.word_trees.specs.Trees.{Do, Ask};
ghost use Rattle.t_base.specs.declared.builtins.Builtin.TheVariants as builtin;
ghost use Rattle.select_rows.specs.Macros.{of_var, by_test, unless, either, is_object, choose};
ghost use Rattle.select_rows.specs.Codes.{code_of};
ghost use Rattle.prim_holds.specs.Operands.{code_at};
ghost use Rattle.word_drafts.specs.Drafts.{IsProper, Writes, WritesBeside};
ghost use Rattle.truth_drafts.specs.Meetings.{Meets};

use std::alloc::Global;
use t_base::{Memory, Var};
use word_drafts::Draft;
use word_ir::{Operand, Test, WordOp};

/// The word of Nil.
const NIL: u32 = 5;

/// The word of True.
const TRUE: u32 = 9;

/// The static word by which the two answers of a test meet.
const PASS: Operand = Operand::Static(1);

/// True is left for the block `meet`, which is the next one and takes what was left. The only error is the want of memory.
fn meet_at(draft: &mut Draft, alloc: Global, to: Var, meet: u32) -> Result<(), Memory>
    requires { IsProper draft.old }
    ensures { OnOk result (Meets to meet draft.old draft.new) }
{
    draft.line(WordOp::Store {
        base: PASS,
        offset: 0,
        from: Operand::Word(TRUE),
    })?;
    let zero = Operand::Word(0);
    draft.check(alloc, Test::Eq, zero, zero, meet)?;
    if draft.number != meet {
        return Err(Memory);
    }
    let ops = draft.ops.len();
    if ops != 0 {
        return Err(Memory);
    }
    draft.line(WordOp::Load {
        to,
        base: PASS,
        offset: 0,
    })?;
    Ok(())
}

/// Nil is left for the block where both answers meet. The only error is the want of memory.
fn leave_nil(draft: &mut Draft) -> Result<(), Memory>
    ensures { OnOk result (Writes (Do (op.Store (operand.Static 1) (pos 0) (operand.Word 5))) draft.old draft.new) }
{
    draft.line(WordOp::Store {
        base: PASS,
        offset: 0,
        from: Operand::Word(NIL),
    })?;
    Ok(())
}

/// The number that the block has which is so many behind the next one.
fn ahead(draft: &Draft, more: u32) -> Result<u32, Memory> {
    let Ok(next) = u32::try_from(draft.blocks.len()) else {
        return Err(Memory);
    };
    let Some(place) = next.checked_add(more) else {
        return Err(Memory);
    };
    Ok(place)
}

/// True where a test doesn't hold. The only error is the want of memory.
fn choose_unless(
    draft: &mut Draft,
    alloc: Global,
    how: Test,
    a: Operand,
    b: Operand,
    to: Var,
) -> Result<(), Memory>
    requires { IsProper draft.old }
    ensures { OnOk result (Writes (choose (unless (by_test how a b)) to) draft.old draft.new) }
{
    leave_nil(draft)?;
    let meet = ahead(draft, 1)?;
    draft.check_not(alloc, how, a, b, meet)?;
    meet_at(draft, alloc, to, meet)?;
    Ok(())
}

/// True of an object with a header, which the variable t holds then. The only error is the want of memory.
fn choose_object(
    draft: &mut Draft,
    alloc: Global,
    a: Operand,
    header: u32,
    t: u32,
    to: Var,
) -> Result<(), Memory>
    requires { IsProper draft.old }
    ensures { OnOk result (Writes (choose (is_object a (header ∷ []) t) to) draft.old draft.new) }
{
    leave_nil(draft)?;
    let meet = ahead(draft, 2)?;
    draft.check(alloc, Test::TagIs(2), a, Operand::Word(0), meet)?;
    draft.line(WordOp::Load {
        to: Var(t),
        base: a,
        offset: -2,
    })?;
    let header = Operand::Word(header);
    draft.check(alloc, Test::Eq, Operand::Var(Var(t)), header, meet)?;
    meet_at(draft, alloc, to, meet)?;
    Ok(())
}

/// True where one of two tests holds. The only error is the want of memory.
fn choose_either(
    draft: &mut Draft,
    alloc: Global,
    a: Operand,
    tag: u8,
    word: u32,
    to: Var,
) -> Result<(), Memory>
    requires { IsProper draft.old }
    ensures { OnOk result (Writes (choose (either (by_test (test.TagIs tag) a (operand.Word 0)) (by_test test.Eq a (operand.Word word))) to) draft.old draft.new) }
{
    leave_nil(draft)?;
    let arm = ahead(draft, 1)?;
    let meet = ahead(draft, 2)?;
    draft.check_not(alloc, Test::TagIs(tag), a, Operand::Word(0), arm)?;
    draft.check(alloc, Test::Eq, a, Operand::Word(word), meet)?;
    if draft.number != arm {
        return Err(Memory);
    }
    let ops = draft.ops.len();
    if ops != 0 {
        return Err(Memory);
    }
    meet_at(draft, alloc, to, meet)?;
    Ok(())
}

/// Goes to the block `arm` where the variable t holds a header. The only error is the want of memory.
fn if_header(draft: &mut Draft, alloc: Global, t: u32, header: u32, arm: u32) -> Result<(), Memory>
    requires { IsProper draft.old }
    ensures { OnOk result (WritesBeside (Ask test.Eq (of_var t) (operand.Word header)) arm draft.old draft.new) }
{
    let held = Operand::Var(Var(t));
    draft.check_not(alloc, Test::Eq, held, Operand::Word(header), arm)?;
    Ok(())
}

/// Whether a value is what may be called. The only error is the want of memory.
pub fn is_procedure(
    draft: &mut Draft,
    alloc: Global,
    a: Operand,
    t: u32,
    to: Var,
) -> Result<(), Memory>
    requires { IsProper draft.old }
    ensures { OnOk result (Writes (code_at (code_of builtin.IsProcedure) (a ∷ []) t to) draft.old draft.new) }
{
    leave_nil(draft)?;
    let arm = ahead(draft, 5)?;
    let meet = ahead(draft, 6)?;
    draft.check(alloc, Test::TagIs(2), a, Operand::Word(0), meet)?;
    draft.line(WordOp::Load {
        to: Var(t),
        base: a,
        offset: -2,
    })?;
    if_header(draft, alloc, t, 0x1D, arm)?;
    if_header(draft, alloc, t, 0x21, arm)?;
    if_header(draft, alloc, t, 0x25, arm)?;
    if_header(draft, alloc, t, 0x29, arm)?;
    let held = Operand::Var(Var(t));
    draft.check(alloc, Test::Eq, held, Operand::Word(0x2D), meet)?;
    if draft.number != arm {
        return Err(Memory);
    }
    let ops = draft.ops.len();
    if ops != 0 {
        return Err(Memory);
    }
    meet_at(draft, alloc, to, meet)?;
    Ok(())
}

/// Whether a value is a list. The only error is the want of memory.
pub fn is_list(draft: &mut Draft, alloc: Global, a: Operand, to: Var) -> Result<(), Memory>
    requires { IsProper draft.old }
    ensures { OnOk result (Writes (code_at (code_of builtin.IsList) (a ∷ []) 0 to) draft.old draft.new) }
{
    choose_either(draft, alloc, a, 3, NIL, to)
}

/// Whether a value is no pair. The only error is the want of memory.
pub fn is_atom(draft: &mut Draft, alloc: Global, a: Operand, to: Var) -> Result<(), Memory>
    requires { IsProper draft.old }
    ensures { OnOk result (Writes (code_at (code_of builtin.IsAtom) (a ∷ []) 0 to) draft.old draft.new) }
{
    choose_unless(draft, alloc, Test::TagIs(3), a, Operand::Word(0), to)
}

/// Whether it is a string. The only error is the want of memory.
pub fn is_string(
    draft: &mut Draft,
    alloc: Global,
    a: Operand,
    t: u32,
    to: Var,
) -> Result<(), Memory>
    requires { IsProper draft.old }
    ensures { OnOk result (Writes (code_at (code_of builtin.IsString) (a ∷ []) t to) draft.old draft.new) }
{
    choose_object(draft, alloc, a, 0x15, t, to)
}

/// Whether it is a symbol. The only error is the want of memory.
pub fn is_symbol(
    draft: &mut Draft,
    alloc: Global,
    a: Operand,
    t: u32,
    to: Var,
) -> Result<(), Memory>
    requires { IsProper draft.old }
    ensures { OnOk result (Writes (code_at (code_of builtin.IsSymbol) (a ∷ []) t to) draft.old draft.new) }
{
    choose_object(draft, alloc, a, 0x19, t, to)
}

/// Whether it is a vector. The only error is the want of memory.
pub fn is_vector(
    draft: &mut Draft,
    alloc: Global,
    a: Operand,
    t: u32,
    to: Var,
) -> Result<(), Memory>
    requires { IsProper draft.old }
    ensures { OnOk result (Writes (code_at (code_of builtin.IsVector) (a ∷ []) t to) draft.old draft.new) }
{
    choose_object(draft, alloc, a, 0x11, t, to)
}
