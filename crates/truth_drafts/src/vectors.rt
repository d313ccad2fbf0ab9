//! The rows that make a vector, and that end a run.

ghost use Rattle.std.specs.Prelude.{◌≤◌, [], ◌∷◌, IfOk, OnOk};
ghost use Rattle.t_base.specs.declared.builtins.Builtin.TheVariants as builtin;
ghost use Rattle.word_ir.specs.declared.words.Test.TheVariants as test;
ghost use Rattle.word_ir.specs.declared.operands.Operand.TheVariants as operand;
ghost use Rattle.word_ir.specs.declared.words.WordOp.TheVariants as op;
ghost use Rattle.select_rows.specs.Macros.{fault, var};
ghost use Rattle.select_rows.specs.Codes.{code_of, large_vector, small_vector};
ghost use Rattle.word_trees.specs.Trees.{Ask, Do};
ghost use Rattle.prim_holds.specs.Operands.{code_at};
ghost use Rattle.word_drafts.specs.Drafts.{IsProper, Writes, WritesApart};

use std::alloc::Global;
use t_base::{Memory, Var};
use word_drafts::Draft;
use word_ir::{Arith, Operand, Operands, Test, WordOp};

/// Ends of runs for the three greatest fixnums, of whose vectors no heap has room. The only error is the want of memory.
fn large(draft: &mut Draft, alloc: Global, a: Operand) -> Result<u32, Memory>
    requires { IsProper draft.old }
    ensures { IfOk result (λ place. WritesApart (large_vector a) place draft.old draft.new) }
{
    let last = draft.no_heap(alloc, Operand::Word(2_147_483_656))?;
    let others = draft.no_heap(alloc, Operand::Word(2_147_483_648))?;
    let greatest = Operand::Word(2_147_483_644);
    let place = draft.test_apart(alloc, Test::Eq, a, greatest, last, others)?;
    Ok(place)
}

/// A fixnum that isn't negative, else fault 6. The only error is the want of memory.
fn natural(draft: &mut Draft, alloc: Global, a: Operand) -> Result<(), Memory>
    requires { IsProper draft.old }
    ensures { OnOk result (Writes (Ask test.Lt a (operand.Word 0) (fault 6)) draft.old draft.new) }
{
    let exit = draft.fault(alloc, 6)?;
    draft.check_not(alloc, Test::Lt, a, Operand::Word(0), exit)?;
    Ok(())
}

/// A new vector of a length whose bytes fit a number with a sign. The only error is the want of memory.
fn small(draft: &mut Draft, alloc: Global, a: Operand, t: u32, to: Var) -> Result<(), Memory>
    requires proper { IsProper draft.old }
    requires few { t ≤ 4294967288 }
    ensures { OnOk result (Writes (small_vector a t to) draft.old draft.new) }
{
    draft.make(alloc, Arith::Add, a, Operand::Word(12), Var(t))?;
    let sum = Operand::Var(Var(t));
    draft.make(
        alloc,
        Arith::And,
        sum,
        Operand::Word(4_294_967_288),
        Var(t + 1),
    )?;
    let bytes = Operand::Var(Var(t + 1));
    let full = draft.no_heap(alloc, bytes)?;
    draft.take(Var(t + 2), bytes, full)?;
    let at = Operand::Var(Var(t + 2));
    draft.line(WordOp::Store {
        base: at,
        offset: 0,
        from: Operand::Word(0x11),
    })?;
    draft.line(WordOp::Store {
        base: at,
        offset: 4,
        from: a,
    })?;
    draft.make(alloc, Arith::Add, at, Operand::Word(2), to)?;
    Ok(())
}

/// A new vector of zeros. The only error is the want of memory.
pub fn make_vector(
    draft: &mut Draft,
    alloc: Global,
    a: Operand,
    t: u32,
    to: Var,
) -> Result<(), Memory>
    requires proper { IsProper draft.old }
    requires few { t ≤ 4294967288 }
    ensures { OnOk result (Writes (code_at (code_of builtin.MakeVector) (a ∷ []) t to) draft.old draft.new) }
{
    draft.fixnum(alloc, a)?;
    natural(draft, alloc, a)?;
    let exit = large(draft, alloc, a)?;
    draft.check(alloc, Test::Below, a, Operand::Word(2_147_483_636), exit)?;
    small(draft, alloc, a, t, to)?;
    Ok(())
}

/// An error of the program with a word. The only error is the want of memory.
fn raise(draft: &mut Draft, alloc: Global, a: Operand) -> Result<(), Memory>
    ensures { OnOk result (Writes (Do (op.Service 3 (operand.Word 15 ∷ a ∷ []))) draft.old draft.new) }
{
    let mut args = Vec::new(alloc);
    args.push(Operand::Word(15))?;
    args.push(a)?;
    let args = Operands::from_vec(args);
    draft.line(WordOp::Service { number: 3, args })?;
    Ok(())
}

/// Ends the run by the fault of the program with a fixnum; no variable is bound. The only error is the want of memory.
pub fn error(draft: &mut Draft, alloc: Global, a: Operand) -> Result<(), Memory>
    requires { IsProper draft.old }
    ensures { OnOk result (Writes (code_at (code_of builtin.Error) (a ∷ []) 0 (var 0)) draft.old draft.new) }
{
    draft.fixnum(alloc, a)?;
    raise(draft, alloc, a)?;
    draft.stop(alloc)?;
    Ok(())
}
