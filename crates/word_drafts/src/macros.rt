//! Checks of operands and results, in front of what is written behind them.

ghost use Rattle.std.specs.Prelude.{◌≡◌, OnOk, pos, [], ◌∷◌};
ghost use Rattle.word_ir.specs.declared.operands.Operand.TheVariants as operand;
ghost use Rattle.word_ir.specs.declared.words.WordOp.TheVariants as op;
ghost use Rattle.word_ir.specs.declared.words.WordEnd.TheVariants as last;
ghost use Rattle.word_trees.specs.Trees.{Do};
ghost use Rattle.select_rows.specs.Macros.{fault, fixnum, pair, object, character, index, choose, by_test};
ghost use Rattle.select_rows.specs.Codes.{compute, make, take, unless_zero};
ghost use Rattle.word_drafts.specs.Drafts.{IsProper, Writes, unless_true};

use crate::Draft;
use std::alloc::Global;
use t_base::{Memory, Var};
use word_ir::{Arith, Operand, Operands, Test, WordEnd, WordOp};

/// The word of Nil.
const NIL: u32 = 5;

/// The word of True.
const TRUE: u32 = 9;

/// The static word by which the two answers of a test meet.
const PASS: Operand = Operand::Static(1);

/// Leaves a word for the block where two answers meet.
fn passed(word: u32) -> WordOp
    ensures { result ≡ op.Store (operand.Static 1) (pos 0) (operand.Word word) }
{
    WordOp::Store {
        base: PASS,
        offset: 0,
        from: Operand::Word(word),
    }
}

/// A test with its two blocks.
fn test_end(kind: Test, a: Operand, b: Operand, yes: u32, no: u32) -> WordEnd
    ensures { result ≡ last.Test kind a b yes no }
{
    WordEnd::Test {
        kind,
        a,
        b,
        yes,
        no,
    }
}

impl Draft {
    /// A fixnum, else fault 3. The only error is the want of memory.
    pub fn fixnum(&mut self, alloc: Global, a: Operand) -> Result<(), Memory>
        requires { IsProper self.old }
        ensures { OnOk result (Writes (fixnum a) self.old self.new) }
    {
        let exit = self.fault(alloc, 3)?;
        self.check(alloc, Test::TagIs(0), a, Operand::Word(0), exit)?;
        Ok(())
    }

    /// A pair, else fault 4. The only error is the want of memory.
    pub fn pair(&mut self, alloc: Global, a: Operand) -> Result<(), Memory>
        requires { IsProper self.old }
        ensures { OnOk result (Writes (pair a) self.old self.new) }
    {
        let exit = self.fault(alloc, 4)?;
        self.check(alloc, Test::TagIs(3), a, Operand::Word(0), exit)?;
        Ok(())
    }

    /// An object with a header, which the variable t holds then, else the fault with a number. The only error is the want of memory.
    pub fn object(
        &mut self,
        alloc: Global,
        a: Operand,
        header: u32,
        number: u8,
        t: u32,
    ) -> Result<(), Memory>
        requires { IsProper self.old }
        ensures { OnOk result (Writes (object a header number t) self.old self.new) }
    {
        let exit = self.fault(alloc, number)?;
        self.check(alloc, Test::TagIs(2), a, Operand::Word(0), exit)?;
        self.line(WordOp::Load {
            to: Var(t),
            base: a,
            offset: -2,
        })?;
        let header = Operand::Word(header);
        self.check(alloc, Test::Eq, Operand::Var(Var(t)), header, exit)?;
        Ok(())
    }

    /// A character, whose low byte the variable t holds then, else fault 12. The only error is the want of memory.
    pub fn character(&mut self, alloc: Global, a: Operand, t: u32) -> Result<(), Memory>
        requires { IsProper self.old }
        ensures { OnOk result (Writes (character a t) self.old self.new) }
    {
        let over = self.never(alloc)?;
        self.compute(Var(t), Arith::And, a, Operand::Word(255), over)?;
        let exit = self.fault(alloc, 12)?;
        let low = Operand::Var(Var(t));
        self.check(alloc, Test::Eq, low, Operand::Word(1), exit)?;
        Ok(())
    }

    /// The number of an element, where the length is a word, else fault 6. The only error is the want of memory.
    pub fn index(&mut self, alloc: Global, i: Operand, length: Operand) -> Result<(), Memory>
        requires { IsProper self.old }
        ensures { OnOk result (Writes (index i length) self.old self.new) }
    {
        let exit = self.fault(alloc, 6)?;
        self.check(alloc, Test::Below, i, length, exit)?;
        Ok(())
    }

    /// A word that isn't 0, else fault 8. The only error is the want of memory.
    pub fn unless_zero(&mut self, alloc: Global, b: Operand) -> Result<(), Memory>
        requires { IsProper self.old }
        ensures { OnOk result (Writes (unless_zero b) self.old self.new) }
    {
        let exit = self.fault(alloc, 8)?;
        self.check_not(alloc, Test::Eq, b, Operand::Word(0), exit)?;
        Ok(())
    }

    /// A number, or fault 7 where it doesn't fit. The only error is the want of memory.
    pub fn number(
        &mut self,
        alloc: Global,
        how: Arith,
        a: Operand,
        b: Operand,
        to: Var,
    ) -> Result<(), Memory>
        requires { IsProper self.old }
        ensures { OnOk result (Writes (compute how a b to) self.old self.new) }
    {
        let exit = self.fault(alloc, 7)?;
        self.compute(to, how, a, b, exit)?;
        Ok(())
    }

    /// A number that always fits. The only error is the want of memory.
    pub fn make(
        &mut self,
        alloc: Global,
        how: Arith,
        a: Operand,
        b: Operand,
        to: Var,
    ) -> Result<(), Memory>
        requires { IsProper self.old }
        ensures { OnOk result (Writes (make how a b to) self.old self.new) }
    {
        let exit = self.never(alloc)?;
        self.compute(to, how, a, b, exit)?;
        Ok(())
    }

    /// So many bytes of the heap, whose address the variable t holds, else the run ends for want of them. The only error is the want of memory.
    pub fn room(&mut self, alloc: Global, t: u32, bytes: u32) -> Result<(), Memory>
        requires { IsProper self.old }
        ensures { OnOk result (Writes (take t bytes) self.old self.new) }
    {
        let full = self.no_heap(alloc, Operand::Word(bytes))?;
        self.take(Var(t), Operand::Word(bytes), full)?;
        Ok(())
    }

    /// The answer of a test as Nil or True. The only error is the want of memory.
    pub fn truth(
        &mut self,
        alloc: Global,
        how: Test,
        a: Operand,
        b: Operand,
        to: Var,
    ) -> Result<(), Memory>
        requires { IsProper self.old }
        ensures { OnOk result (Writes (choose (by_test how a b) to) self.old self.new) }
    {
        self.line(passed(NIL))?;
        let Ok(first) = u32::try_from(self.blocks.len()) else {
            return Err(Memory);
        };
        let Some(second) = first.checked_add(1) else {
            return Err(Memory);
        };
        let zero = Operand::Word(0);
        self.split(alloc, test_end(how, a, b, first, second))?;
        self.line(passed(TRUE))?;
        self.split(alloc, test_end(Test::Eq, zero, zero, second, second))?;
        self.line(WordOp::Load {
            to,
            base: PASS,
            offset: 0,
        })?;
        Ok(())
    }

    /// Goes on where a test holds, else to the fault with a number. The only error is the want of memory.
    pub fn need(
        &mut self,
        alloc: Global,
        kind: Test,
        a: Operand,
        b: Operand,
        number: u8,
    ) -> Result<(), Memory>
        requires { IsProper self.old }
        ensures { OnOk result (Writes (unless_true kind a b (fault number)) self.old self.new) }
    {
        let exit = self.fault(alloc, number)?;
        self.check(alloc, kind, a, b, exit)?;
        Ok(())
    }

    /// A service with one operand. The only error is the want of memory.
    pub fn put(&mut self, alloc: Global, number: u8, a: Operand) -> Result<(), Memory>
        ensures { OnOk result (Writes (Do (op.Service number (a ∷ []))) self.old self.new) }
    {
        let mut args = Vec::new(alloc);
        args.push(a)?;
        let args = Operands::from_vec(args);
        self.line(WordOp::Service { number, args })?;
        Ok(())
    }
}
