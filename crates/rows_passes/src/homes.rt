//! Homes of variables.

ghost use Rattle.std.specs.Prelude.{[], IfOk};
ghost use Rattle.t_base.specs.SharedParts.{IsCopyOf as IsCopyOfShared};
ghost use Rattle.word_ir.specs.Copies.{IsCopyOf, IsCopyOfBlock};
ghost use Rattle.rows_passes.specs.Sum.{sum_shared, last_block, sum_block, sum_words};

use std::alloc::Global;
use std::test::Fail;
use t_base::{Memory, Name, Names, OpInfo, Shared, Var, Vars};
use trace_regs::assign;
use word_ir::{Arith, Home, Operand, Operands, WordBlock, WordEnd, WordOp, Words};

pub fn shared_of(alloc: Global) -> Result<Shared, Memory>
    ensures { IfOk result (λ shared. IsCopyOfShared (sum_shared alloc) shared) }
{
    let mut names = Names::new(alloc);
    names.intern(b"setter")?;
    let op = OpInfo {
        name: Name(0),
        default: false,
    };
    let ops = Vec::from_slice(alloc, &[op, op, op])?;
    Ok(Shared {
        names,
        strings: Vec::new(alloc),
        pairs: Vec::new(alloc),
        globals: Vec::new(alloc),
        ops,
        size: 0,
    })
}

/// A block that ends with a service.
pub fn ending(
    alloc: Global,
    params: &[Var],
    number: u8,
    operand: Operand,
) -> Result<WordBlock, Memory>
    ensures { IfOk result (λ block. IsCopyOfBlock (last_block alloc params.now number operand) block) }
{
    let params = Vec::from_slice(alloc, params)?;
    let args = Vec::from_slice(alloc, &[operand])?;
    let mut ops = Vec::new(alloc);
    ops.push(WordOp::Service {
        number,
        args: Operands::from_vec(args),
    })?;
    Ok(WordBlock {
        params: Vars::from_vec(params),
        ops,
        last: WordEnd::Stop,
    })
}

/// A block that adds and jumps.
fn entry(alloc: Global) -> Result<WordBlock, Memory>
    ensures { IfOk result (λ block. IsCopyOfBlock (sum_block alloc) block) }
{
    let mut ops = Vec::new(alloc);
    ops.push(WordOp::Move {
        to: Var(0),
        from: Operand::Word(160),
    })?;
    ops.push(WordOp::Arith {
        to: Var(1),
        kind: Arith::Add,
        a: Operand::Var(Var(0)),
        b: Operand::Word(8),
        over: 1,
    })?;
    let args = Vec::from_slice(alloc, &[Operand::Var(Var(1))])?;
    Ok(WordBlock {
        params: Vars::from_vec(Vec::new(alloc)),
        ops,
        last: WordEnd::Jump {
            block: 2,
            args: Operands::from_vec(args),
        },
    })
}

fn program(alloc: Global) -> Result<Words, Memory>
    ensures { IfOk result (λ words. IsCopyOf (sum_words alloc) words) }
{
    let shared = shared_of(alloc)?;
    let mut blocks = Vec::new(alloc);
    blocks.push(entry(alloc)?)?;
    blocks.push(ending(alloc, &[], 3, Operand::Word(7))?)?;
    blocks.push(ending(alloc, &[Var(2)], 0, Operand::Var(Var(2)))?)?;
    Ok(Words {
        shared,
        statics: Vec::new(alloc),
        blocks,
        entry: 0,
    })
}

#[test]
fn two_variables_and_a_parameter_have_static_words(rt: HostRuntime) -> Result<(), Fail> {
    let words = program(rt.alloc())?;
    let placed = assign(rt.alloc(), &words)?;
    let homes = [Home::Static(0), Home::Static(1), Home::Static(2)];
    assert_eq!(rt; placed.at.as_slice(), homes.as_slice());
    assert_eq!(rt; placed.words.statics.len(), 4);
    assert_eq!(rt; placed.words.blocks.len(), 3);
    Ok(())
}
