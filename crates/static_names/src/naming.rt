// What is named, in order.
ghost use Rattle.std.specs.Prelude.{◌≡◌, ◌++◌, ◌≤◌, length, count_by, IfOk, OnOk};
ghost use Rattle.std.specs.List.{flat_map};
ghost use Rattle.frame_ir.specs.Arguments.{is_proc, proc_count};
ghost use Rattle.static_names.specs.Named.{of_const, of_arg, of_op, of_end, of_block, closures_below, named};

use crate::Thing;
use cps_ir::Arg;
use frame_ir::{Block, FrameEnd, FrameOp, Frames, Place};
use std::alloc::Global;
use t_base::{Const, Global1, GlobalKind, Memory};

/// Puts what a constant names last. The only error is the want of memory.
pub fn push_const(c: Const, things: &mut Vec<Thing>) -> Result<(), Memory>
    ensures { OnOk result (things.new.items ≡ things.old.items ++ of_const c) }
{
    match c {
        Const::Sym(name) => things.push(Thing::Symbol(name.0))?,
        Const::Str(k) => things.push(Thing::Literal(k))?,
        Const::Pair(k) => things.push(Thing::Pair(k))?,
        Const::Fix(_) | Const::Char(_) | Const::Nil | Const::True => {}
    }
    Ok(())
}

fn push_arg(arg: Arg, things: &mut Vec<Thing>) -> Result<(), Memory>
    ensures { OnOk result (things.new.items ≡ things.old.items ++ of_arg arg) }
{
    match arg {
        Arg::Const(c) => push_const(c, things)?,
        Arg::Proc(k) => things.push(Thing::Closure(k))?,
        Arg::Builtin(p) => things.push(Thing::Builtin(p))?,
        Arg::Op(o) => things.push(Thing::Operation(o))?,
        Arg::Var(_) | Arg::Global(_) => {}
    }
    Ok(())
}

fn push_args(args: &[Arg], things: &mut Vec<Thing>) -> Result<(), Memory>
    ensures { OnOk result (things.new.items ≡ things.old.items ++ flat_map of_arg args.now) }
{
    for arg in args {
        push_arg(*arg, things)?;
    }
    Ok(())
}

fn push_op(op: &FrameOp, things: &mut Vec<Thing>) -> Result<(), Memory>
    ensures { OnOk result (things.new.items ≡ things.old.items ++ of_op op.now) }
{
    match op {
        FrameOp::Prim { args, .. } => push_args(args.as_slice(), things),
        FrameOp::Closure { code, at, .. } => match at {
            Place::Static => Ok(things.push(Thing::Closure(*code))?),
            Place::Heap | Place::Frame(_) => Ok(()),
        },
        FrameOp::Cell { value, .. } => push_arg(*value, things),
        FrameOp::CellSet { value, .. } => push_arg(*value, things),
        FrameOp::GlobalPut { value, .. } => push_arg(*value, things),
        FrameOp::Object { template, proc, .. } => {
            things.push(Thing::Template(*template))?;
            push_arg(*proc, things)
        }
        FrameOp::ClosureGet { .. }
        | FrameOp::FrameGet { .. }
        | FrameOp::CellGet { .. }
        | FrameOp::GlobalGet { .. }
        | FrameOp::Push { .. }
        | FrameOp::Pop
        | FrameOp::CatchOpen { .. }
        | FrameOp::CatchClose => Ok(()),
    }
}

fn push_ops(ops: &[FrameOp], things: &mut Vec<Thing>) -> Result<(), Memory>
    ensures { OnOk result (things.new.items ≡ things.old.items ++ flat_map of_op ops.now) }
{
    for op in ops {
        push_op(op, things)?;
    }
    Ok(())
}

fn push_end(end: &FrameEnd, things: &mut Vec<Thing>) -> Result<(), Memory>
    ensures { OnOk result (things.new.items ≡ things.old.items ++ of_end end.now) }
{
    match end {
        FrameEnd::Call { f, args } => {
            push_arg(*f, things)?;
            push_args(args.as_slice(), things)
        }
        FrameEnd::Jump { args, .. } => push_args(args.as_slice(), things),
        FrameEnd::If { test, .. } => push_arg(*test, things),
        FrameEnd::Return(value) => push_arg(*value, things),
        FrameEnd::Halt(value) => push_arg(*value, things),
    }
}

fn push_block(block: &Block, things: &mut Vec<Thing>) -> Result<(), Memory>
    ensures { OnOk result (things.new.items ≡ things.old.items ++ of_block block.now) }
{
    push_ops(block.ops.as_slice(), things)?;
    push_end(&block.last, things)?;
    Ok(())
}

fn push_blocks(blocks: &[Block], things: &mut Vec<Thing>) -> Result<(), Memory>
    ensures { OnOk result (things.new.items ≡ things.old.items ++ flat_map of_block blocks.now) }
{
    for block in blocks {
        push_block(block, things)?;
    }
    Ok(())
}

/// Whether a global is a procedure.
pub fn is_procedure(kind: GlobalKind) -> bool
    ensures { result ≡ is_proc kind }
{
    matches!(kind, GlobalKind::Proc)
}

fn count_procedures(globals: &[Global1]) -> usize
    ensures { result ≡ count_by (λ g. is_proc g.kind) globals.now }
{
    let mut count = 0;
    for global in globals {
        if is_procedure(global.kind) {
            count += 1;
        }
    }
    count
}

fn push_closures(count: u32, things: &mut Vec<Thing>) -> Result<(), Memory>
    ensures { OnOk result (things.new.items ≡ things.old.items ++ closures_below count) }
{
    for k in 0..count {
        things.push(Thing::Closure(k))?;
    }
    Ok(())
}

/// What a program names in static words, in order: the closures of the globals that are procedures, and then what its blocks name, as often as they do. It is
/// linear in operations and arguments. The only error is the want of memory.
pub fn named(alloc: Global, frames: &Frames) -> Result<Vec<Thing>, Memory>
    ensures { IfOk result (λ things. things.items ≡ named frames.now) }
{
    let mut things = Vec::new(alloc);
    let Ok(count) = u32::try_from(count_procedures(frames.shared.globals.as_slice())) else {
        return Err(Memory);
    };
    push_closures(count, &mut things)?;
    push_blocks(frames.blocks.as_slice(), &mut things)?;
    Ok(things)
}
