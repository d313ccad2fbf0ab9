//! A program under way.

ghost use Rattle.std.specs.Prelude.{◌≡◌, ◌<◌, IfOk, OnOk, length, slice_set, [], ◌∷◌};
ghost use Rattle.word_ir.specs.declared.operands.Operand.TheVariants as operand;
ghost use Rattle.word_ir.specs.declared.words.WordOp.TheVariants as op;
ghost use Rattle.word_trees.specs.Trees.{Do, Or, Ask, Close, Compute, Take, Push};
ghost use Rattle.select_rows.specs.Macros.{fault, never};
ghost use Rattle.select_rows.specs.Codes.{no_heap};
ghost use Rattle.word_drafts.specs.Drafts.{IsProper, Writes, Ends, Adds, WritesApart, WritesBeside, WritesTestApart, unless_true, ends_here, Closes};

use std::alloc::Global;
use std::mem;
use t_base::{Memory, Var, Vars};
use word_ir::{Arith, Operand, Operands, Test, WordBlock, WordEnd, WordOp};

/// A program of words under way: its blocks, of which the one that is being written is held apart, with its parameters and the operations so far.
/// Blocks from `begun` to `heads` have their numbers, and aren't begun yet. What stands in `blocks` for one that isn't done is of no use.
#[derive(Drop)]
pub struct Draft {
    pub blocks: Vec<WordBlock>,
    pub heads: u32,
    pub begun: u32,
    pub number: u32,
    pub params: Vars,
    pub ops: Vec<WordOp>,
}

pub(crate) fn empty_block(alloc: Global) -> WordBlock {
    WordBlock {
        params: Vars::from_vec(Vec::new(alloc)),
        ops: Vec::new(alloc),
        last: WordEnd::Stop,
    }
}

fn set_block(blocks: &mut Vec<WordBlock>, place: u32, block: WordBlock)
    requires { place < length blocks.old.items }
    ensures { blocks.new.items ≡ slice_set blocks.old.items place block }
{
    blocks[place as usize] = block;
}

impl Draft {
    /// One line more in the block under way. The only error is the want of memory.
    pub fn line(&mut self, op: WordOp) -> Result<(), Memory>
        ensures written { OnOk result (Writes (Do op) self.old self.new) }
        ensures blocks { OnOk result (self.new.blocks ≡ self.old.blocks) }
    {
        self.ops.push(op)?;
        Ok(())
    }

    /// The block under way ends so, and a new one without parameters is under way. The only error is the want of memory.
    pub(crate) fn split(&mut self, alloc: Global, last: WordEnd) -> Result<(), Memory>
        requires { IsProper self.old }
        ensures { OnOk result (Ends last self.old self.new) }
    {
        let Ok(next) = u32::try_from(self.blocks.len()) else {
            return Err(Memory);
        };
        let params = mem::replace(&mut self.params, Vars::from_vec(Vec::new(alloc)));
        let ops = mem::replace(&mut self.ops, Vec::new(alloc));
        set_block(
            &mut self.blocks,
            self.number,
            WordBlock { params, ops, last },
        );
        self.blocks.push(empty_block(alloc))?;
        self.number = next;
        Ok(())
    }

    /// A finished block behind all, and its number. The only error is the want of memory.
    fn behind(&mut self, alloc: Global, ops: Vec<WordOp>, last: WordEnd) -> Result<u32, Memory>
        requires { IsProper self.old }
        ensures { IfOk result (λ place. Adds ops.items last place self.old self.new) }
    {
        let Ok(place) = u32::try_from(self.blocks.len()) else {
            return Err(Memory);
        };
        let params = Vars::from_vec(Vec::new(alloc));
        self.blocks.push(WordBlock { params, ops, last })?;
        Ok(place)
    }

    /// A block that ends the run by the fault with a number, and its number. The only error is the want of memory.
    pub fn fault(&mut self, alloc: Global, number: u8) -> Result<u32, Memory>
        requires { IsProper self.old }
        ensures { IfOk result (λ place. WritesApart (fault number) place self.old self.new) }
    {
        let mut args = Vec::new(alloc);
        args.push(Operand::Word(u32::from(number)))?;
        let mut ops = Vec::new(alloc);
        ops.push(WordOp::Service {
            number: 3,
            args: Operands::from_vec(args),
        })?;
        let place = self.behind(alloc, ops, WordEnd::Stop)?;
        Ok(place)
    }

    /// A block that ends the run for want of so many bytes of heap, and its number. The only error is the want of memory.
    pub fn no_heap(&mut self, alloc: Global, bytes: Operand) -> Result<u32, Memory>
        requires { IsProper self.old }
        ensures { IfOk result (λ place. WritesApart (no_heap bytes) place self.old self.new) }
    {
        let mut args = Vec::new(alloc);
        args.push(bytes)?;
        args.push(Operand::Word(0))?;
        let mut ops = Vec::new(alloc);
        ops.push(WordOp::Service {
            number: 4,
            args: Operands::from_vec(args),
        })?;
        let place = self.behind(alloc, ops, WordEnd::Stop)?;
        Ok(place)
    }

    /// A block that ends the run for want of so many bytes of the heap (0) or of the stack (1), and its number. The only error is the want of memory.
    pub fn full(&mut self, alloc: Global, bytes: Operand, kind: u32) -> Result<u32, Memory>
        requires { IsProper self.old }
        ensures { IfOk result (λ place. WritesApart (Do (op.Service 4 (bytes ∷ operand.Word kind ∷ [])) never) place self.old self.new) }
    {
        let mut args = Vec::new(alloc);
        args.push(bytes)?;
        args.push(Operand::Word(kind))?;
        let mut ops = Vec::new(alloc);
        ops.push(WordOp::Service {
            number: 4,
            args: Operands::from_vec(args),
        })?;
        let place = self.behind(alloc, ops, WordEnd::Stop)?;
        Ok(place)
    }

    /// A block to which no run comes, and its number. The only error is the want of memory.
    pub fn never(&mut self, alloc: Global) -> Result<u32, Memory>
        requires { IsProper self.old }
        ensures { IfOk result (λ place. WritesApart never place self.old self.new) }
    {
        let place = self.behind(alloc, Vec::new(alloc), WordEnd::Stop)?;
        Ok(place)
    }

    /// A result, or where it doesn't fit the block `exit`. The only error is the want of memory.
    pub fn compute(
        &mut self,
        to: Var,
        kind: Arith,
        a: Operand,
        b: Operand,
        exit: u32,
    ) -> Result<(), Memory>
        ensures { OnOk result (WritesBeside (Or (Compute to kind a b)) exit self.old self.new) }
    {
        self.ops.push(WordOp::Arith {
            to,
            kind,
            a,
            b,
            over: exit,
        })?;
        Ok(())
    }

    /// Bytes of the heap, or where there is no room the block `exit`. The only error is the want of memory.
    pub fn take(&mut self, to: Var, bytes: Operand, exit: u32) -> Result<(), Memory>
        ensures { OnOk result (WritesBeside (Or (Take to bytes)) exit self.old self.new) }
    {
        self.ops.push(WordOp::Take {
            to,
            bytes,
            full: exit,
        })?;
        Ok(())
    }

    /// Words of the stack, or where there is no room the block `exit`. The only error is the want of memory.
    pub fn push(&mut self, words: u32, exit: u32) -> Result<(), Memory>
        ensures { OnOk result (WritesBeside (Or (Push words)) exit self.old self.new) }
    {
        self.ops.push(WordOp::Push { words, full: exit })?;
        Ok(())
    }

    /// Goes on where the test holds, else in the block `exit`. The only error is the want of memory.
    pub fn check(
        &mut self,
        alloc: Global,
        kind: Test,
        a: Operand,
        b: Operand,
        exit: u32,
    ) -> Result<(), Memory>
        requires { IsProper self.old }
        ensures { OnOk result (WritesBeside (unless_true kind a b) exit self.old self.new) }
    {
        let Ok(next) = u32::try_from(self.blocks.len()) else {
            return Err(Memory);
        };
        let end = WordEnd::Test {
            kind,
            a,
            b,
            yes: next,
            no: exit,
        };
        self.split(alloc, end)
    }

    /// Goes on where the test doesn't hold, else in the block `exit`. The only error is the want of memory.
    pub fn check_not(
        &mut self,
        alloc: Global,
        kind: Test,
        a: Operand,
        b: Operand,
        exit: u32,
    ) -> Result<(), Memory>
        requires { IsProper self.old }
        ensures { OnOk result (WritesBeside (Ask kind a b) exit self.old self.new) }
    {
        let Ok(next) = u32::try_from(self.blocks.len()) else {
            return Err(Memory);
        };
        let end = WordEnd::Test {
            kind,
            a,
            b,
            yes: exit,
            no: next,
        };
        self.split(alloc, end)
    }

    /// A block that ends with a test, without any line in front of it, and its number. The only error is the want of memory.
    pub fn test_apart(
        &mut self,
        alloc: Global,
        kind: Test,
        a: Operand,
        b: Operand,
        yes: u32,
        no: u32,
    ) -> Result<u32, Memory>
        requires { IsProper self.old }
        ensures { IfOk result (λ place. WritesTestApart kind a b yes no place self.old self.new) }
    {
        let end = WordEnd::Test {
            kind,
            a,
            b,
            yes,
            no,
        };
        let place = self.behind(alloc, Vec::new(alloc), end)?;
        Ok(place)
    }

    /// Nothing comes behind: what is written next is reached by no run. The only error is the want of memory.
    pub fn stop(&mut self, alloc: Global) -> Result<(), Memory>
        requires { IsProper self.old }
        ensures { OnOk result (Writes ends_here self.old self.new) }
    {
        self.split(alloc, WordEnd::Stop)?;
        Ok(())
    }

    /// The block under way has an end, and an empty one is under way. The only error is the want of memory.
    pub fn close(&mut self, alloc: Global, end: WordEnd) -> Result<(), Memory>
        requires { IsProper self.old }
        ensures { OnOk result (Closes (Close end) self.old self.new) }
    {
        self.split(alloc, end)?;
        Ok(())
    }
}
