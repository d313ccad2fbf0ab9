//! Words with homes, as code that the machine runs.

ghost use Rattle.std.specs.Prelude.{◌≡◌, [], IfOk};
ghost use Rattle.word_ir.specs.Copies.{IsCopyOf, IsCopyOfBlock};
ghost use Rattle.rows_passes.specs.Turns.{first_block, test_block, call_block, turn_block, called_block, turns_words};

use crate::homes::{ending, shared_of};
use image_file::Image;
use lap_emit::emit;
use m68020_asm::assemble;
use m68020_step::Sizes;
use orbit_monitor::{Boot, End, boot, run};
use static_bytes::static_bytes;
use std::alloc::Global;
use std::test::Fail;
use t_base::{Face, Memory, Names, Var, Vars};
use t_ports::ports::NullSink;
use trace_regs::assign;
use word_ir::{Arith, Operand, Operands, Test, WordBlock, WordEnd, WordOp, Words};

/// A block without operations.
fn leading(alloc: Global, params: &[Var], last: WordEnd) -> Result<WordBlock, Memory>
    ensures { IfOk result (λ block. (block.params ≡ params.now) × (block.ops.items ≡ []) × (block.last ≡ last)) }
{
    let params = Vec::from_slice(alloc, params)?;
    Ok(WordBlock {
        params: Vars::from_vec(params),
        ops: Vec::new(alloc),
        last,
    })
}

fn first(alloc: Global) -> Result<WordBlock, Memory>
    ensures { IfOk result (λ block. IsCopyOfBlock (first_block alloc) block) }
{
    let args = [
        Operand::Word(0),
        Operand::Word(4),
        Operand::Word(4000),
        Operand::Word(28),
    ];
    let args = Vec::from_slice(alloc, &args)?;
    let last = WordEnd::Jump {
        block: 1,
        args: Operands::from_vec(args),
    };
    leading(alloc, &[], last)
}

fn test(alloc: Global) -> Result<WordBlock, Memory>
    ensures { IfOk result (λ block. IsCopyOfBlock (test_block alloc) block) }
{
    let last = WordEnd::Test {
        kind: Test::Le,
        a: Operand::Var(Var(2)),
        b: Operand::Word(0),
        yes: 2,
        no: 3,
    };
    leading(alloc, &[Var(0), Var(1), Var(2), Var(3)], last)
}

fn call(alloc: Global) -> Result<WordBlock, Memory>
    ensures { IfOk result (λ block. IsCopyOfBlock (call_block alloc) block) }
{
    let args = [
        Operand::Var(Var(1)),
        Operand::Var(Var(0)),
        Operand::Var(Var(3)),
    ];
    let args = Vec::from_slice(alloc, &args)?;
    let last = WordEnd::Enter {
        code: Operand::Code(5),
        args: Operands::from_vec(args),
    };
    leading(alloc, &[], last)
}

fn turn(alloc: Global) -> Result<WordBlock, Memory>
    ensures { IfOk result (λ block. IsCopyOfBlock (turn_block alloc) block) }
{
    let mut ops = Vec::new(alloc);
    ops.push(WordOp::Arith {
        to: Var(4),
        kind: Arith::Sub,
        a: Operand::Var(Var(2)),
        b: Operand::Word(4),
        over: 4,
    })?;
    ops.push(WordOp::Arith {
        to: Var(5),
        kind: Arith::Add,
        a: Operand::Var(Var(3)),
        b: Operand::Var(Var(0)),
        over: 4,
    })?;
    let args = [
        Operand::Var(Var(1)),
        Operand::Var(Var(0)),
        Operand::Var(Var(4)),
        Operand::Var(Var(5)),
    ];
    let args = Vec::from_slice(alloc, &args)?;
    Ok(WordBlock {
        params: Vars::from_vec(Vec::new(alloc)),
        ops,
        last: WordEnd::Jump {
            block: 1,
            args: Operands::from_vec(args),
        },
    })
}

fn called(alloc: Global) -> Result<WordBlock, Memory>
    ensures { IfOk result (λ block. IsCopyOfBlock (called_block alloc) block) }
{
    let params = Vec::from_slice(alloc, &[Var(6), Var(7), Var(8)])?;
    let mut ops = Vec::new(alloc);
    ops.push(WordOp::Arith {
        to: Var(9),
        kind: Arith::Mul,
        a: Operand::Var(Var(6)),
        b: Operand::Word(100),
        over: 4,
    })?;
    ops.push(WordOp::Arith {
        to: Var(10),
        kind: Arith::Sub,
        a: Operand::Var(Var(8)),
        b: Operand::Var(Var(9)),
        over: 4,
    })?;
    ops.push(WordOp::Arith {
        to: Var(11),
        kind: Arith::Add,
        a: Operand::Var(Var(10)),
        b: Operand::Var(Var(7)),
        over: 4,
    })?;
    let args = Vec::from_slice(alloc, &[Operand::Var(Var(11))])?;
    ops.push(WordOp::Service {
        number: 0,
        args: Operands::from_vec(args),
    })?;
    Ok(WordBlock {
        params: Vars::from_vec(params),
        ops,
        last: WordEnd::Stop,
    })
}

fn program(alloc: Global) -> Result<Words, Memory>
    ensures { IfOk result (λ words. IsCopyOf (turns_words alloc) words) }
{
    let shared = shared_of(alloc)?;
    let mut blocks = Vec::new(alloc);
    blocks.push(first(alloc)?)?;
    blocks.push(test(alloc)?)?;
    blocks.push(call(alloc)?)?;
    blocks.push(turn(alloc)?)?;
    blocks.push(ending(alloc, &[], 3, Operand::Word(28))?)?;
    blocks.push(called(alloc)?)?;
    Ok(Words {
        shared,
        statics: Vec::new(alloc),
        blocks,
        entry: 0,
    })
}

fn load(alloc: Global, code: Vec<u8>, statics: Vec<u8>, entry: u32) -> Result<Boot, Fail> {
    if code.len() % 2 != 0 || code.len() < 2 || 1000 < code.len() {
        return Err(Fail::from("no code"));
    }
    if statics.len() % 8 != 0 || 1000 < statics.len() {
        return Err(Fail::from("no static words"));
    }
    let image = Image {
        code,
        statics,
        entry,
        names: Names::new(alloc),
    };
    let sizes = Sizes {
        heap: 64,
        stack: 64,
    };
    Ok(boot(alloc, &image, sizes)?)
}

/// A thousand turns add 0 and 4 in turn to 28, which comes to 2028; then 4 times 100 is taken away, and 0 added: the fixnum 407. Each
/// turn has at most 65 instructions. Moves that overwrite each other would give another sum.
#[test]
fn a_thousand_turns_exchange_two_words(rt: HostRuntime) -> Result<(), Fail> {
    let alloc = rt.alloc();
    let words = program(alloc)?;
    let placed = assign(alloc, &words)?;
    let items = emit(alloc, &placed)?;
    let code = assemble(alloc, items.as_slice())?;
    let statics = static_bytes(
        alloc,
        placed.words.statics.as_slice(),
        code.labels.as_slice(),
    )?;
    let Some(entry) = code.labels.get(0) else {
        return Err(Fail::from("no entry"));
    };
    let entry = *entry;
    let mut program = load(alloc, code.bytes, statics, entry)?;
    let mut sink = NullSink;
    assert_eq!(rt;
        run(&mut program, 65_000, &mut sink),
        End::Done(Face::Fix(407))
    );
    Ok(())
}
