// Lists of arguments and of operands, copies of a program of words, and the names of an image, with memory at hand.
use cps_ir::{Arg, Args};
use std::alloc::Global;
use std::process::Abort;
use std::test::Fail;
use t_base::{Const, Name, Names, OpInfo, Shared, Var, Vars};
use word_ir::{
    Arith, Operand, Operands, StaticWord, Test, WordBlock, WordEnd, WordOp, Words, image_names,
};

#[test]
fn lists_keep_their_items(rt: HostRuntime) -> Result<(), Fail> {
    let args = [Arg::Const(Const::Fix(40)), Arg::Var(Var(1)), Arg::Proc(2)];
    let list = Args::from_vec(args.to_vec(rt.alloc())?);
    assert_eq!(rt; list.as_slice(), args.as_slice());
    assert_eq!(rt; list.into_vec().as_slice(), args.as_slice());
    let operands = [Operand::Slot(10), Operand::Word(168), Operand::Code(1)];
    let list = Operands::from_vec(operands.to_vec(rt.alloc())?);
    assert_eq!(rt; list.copy(rt.alloc())?.as_slice(), operands.as_slice());
    assert_eq!(rt; list.into_vec().as_slice(), operands.as_slice());
    Ok(())
}

fn shared_of(alloc: Global) -> Result<Shared, Fail> {
    let mut names = Names::new(alloc);
    names.intern(b"setter")?;
    let op = OpInfo {
        name: Name(0),
        default: false,
    };
    Ok(Shared {
        names,
        strings: Vec::new(alloc),
        pairs: Vec::new(alloc),
        globals: Vec::new(alloc),
        ops: Vec::from_slice(alloc, &[op, op, op])?,
        size: 3,
    })
}

// A Push, a sum and a Store, and then a jump to a block that halts.
fn entry_block(alloc: Global) -> Result<WordBlock, Fail> {
    let mut ops = Vec::new(alloc);
    ops.push(WordOp::Push { words: 2, full: 2 })?;
    ops.push(WordOp::Arith {
        to: Var(0),
        kind: Arith::Add,
        a: Operand::Word(160),
        b: Operand::Word(8),
        over: 2,
    })?;
    ops.push(WordOp::Store {
        base: Operand::Slot(0),
        offset: -4,
        from: Operand::Var(Var(0)),
    })?;
    let args = Operands::from_vec(Vec::from_slice(alloc, &[Operand::Var(Var(0))])?);
    Ok(WordBlock {
        params: Vars::from_vec(Vec::new(alloc)),
        ops,
        last: WordEnd::Jump { block: 1, args },
    })
}

fn halting_block(alloc: Global, value: Operand) -> Result<WordBlock, Fail> {
    let args = Operands::from_vec(Vec::from_slice(alloc, &[value])?);
    let mut ops = Vec::new(alloc);
    ops.push(WordOp::Service { number: 0, args })?;
    Ok(WordBlock {
        params: Vars::from_vec(Vec::from_slice(alloc, &[Var(1)])?),
        ops,
        last: WordEnd::Test {
            kind: Test::TagIs(2),
            a: value,
            b: Operand::Word(0),
            yes: 2,
            no: 2,
        },
    })
}

fn program(alloc: Global) -> Result<Words, Fail> {
    let mut blocks = Vec::new(alloc);
    blocks.push(entry_block(alloc)?)?;
    blocks.push(halting_block(alloc, Operand::Var(Var(1)))?)?;
    Ok(Words {
        shared: shared_of(alloc)?,
        statics: Vec::from_slice(alloc, &[StaticWord::Word(5), StaticWord::Code(1)])?,
        blocks,
        entry: 0,
    })
}

// Whether it is the sum that the program has.
fn is_sum(op: &WordOp) -> bool {
    match op {
        WordOp::Arith {
            to,
            kind,
            a,
            b,
            over,
        } => {
            *to == Var(0)
                && *kind == Arith::Add
                && *a == Operand::Word(160)
                && *b == Operand::Word(8)
                && *over == 2
        }
        _ => false,
    }
}

// Whether it is the store that the program has.
fn is_store(op: &WordOp) -> bool {
    match op {
        WordOp::Store { base, offset, from } => {
            *base == Operand::Slot(0) && *offset == -4 && *from == Operand::Var(Var(0))
        }
        _ => false,
    }
}

// Whether it is the jump that the program has.
fn is_jump(end: &WordEnd) -> bool {
    match end {
        WordEnd::Jump { block, args } => {
            *block == 1 && args.as_slice() == [Operand::Var(Var(0))].as_slice()
        }
        _ => false,
    }
}

#[test]
fn words_are_copied(rt: HostRuntime) -> Result<(), Fail> {
    let words = program(rt.alloc())?;
    let copy = words.copy(rt.alloc())?;
    assert_eq!(rt; copy.entry, 0);
    assert_eq!(rt; copy.statics.as_slice(), words.statics.as_slice());
    assert_eq!(rt; copy.shared.size, 3);
    assert_eq!(rt; copy.blocks.len(), 2);
    assert_eq!(rt; copy.blocks[0].ops.len(), 3);
    assert!(rt; is_sum(&copy.blocks[0].ops[1]));
    assert!(rt; is_store(&copy.blocks[0].ops[2]));
    Ok(())
}

#[test]
fn ends_are_copied(rt: HostRuntime) -> Result<(), Fail> {
    let words = program(rt.alloc())?;
    let copy = words.copy(rt.alloc())?;
    assert_eq!(rt; copy.blocks.len(), 2);
    assert!(rt; is_jump(&copy.blocks[0].last));
    assert_eq!(rt; copy.blocks[1].params.as_slice(), [Var(1)].as_slice());
    Ok(())
}

// The names of an image are those of a unit up to 65,535 bytes, each one where it comes first.
#[test]
fn names_of_an_image(rt: HostRuntime) -> Result<(), Fail> {
    let mut names = Names::new(rt.alloc());
    names.intern(b"setter")?;
    let mut long = Vec::new(rt.alloc());
    for _ in 0..65_535 {
        long.push(b'a')?;
    }
    names.intern(long.as_slice())?;
    long.push(b'b')?;
    names.intern(long.as_slice())?;
    names.intern(b"b")?;
    let made = image_names(rt.alloc(), &names)?;
    assert_eq!(rt; made.places.as_slice(), [0, 1, 1, 2].as_slice());
    assert_eq!(rt; made.names.count(), 3);
    assert_eq!(rt; made.names.text(Name(2)), b"b".as_slice());
    Ok(())
}
