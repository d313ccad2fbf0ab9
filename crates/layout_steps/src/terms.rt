// Terms, each in its place in a block.
ghost use Rattle.std.specs.Prelude.{◌≡◌, ◌∷◌, [], ◌<◌, ℕ, IfOk};
ghost use Rattle.cps_ir.specs.declared.terms.Term.TheVariants as Node;
ghost use Rattle.layout_tables.specs.Sketches.{AreBelow, KnowsFirst};
ghost use Rattle.layout_steps.specs.Steps.{IsLaid, IsArm};

use crate::arguments::{is_procedure, prepare, prepare_list};
use crate::frames::{await_return, tail};
use crate::giving::{begin_with, give_away, give_new, give_value};
use cps_ir::{Arg, Args, Cont, Cps};
use frame_ir::{FrameEnd, FrameOp};
use layout_tables::{Join, Line, Request, Scope, Site, Step, Tables, Work, rank_of};
use std::alloc::Global;
use t_base::{Memory, Prim, Var};

/// A call: in a tail place without a frame, else behind the frame of its continuation.
pub fn lay_call(
    alloc: Global,
    cps: &Cps,
    tables: &Tables,
    work: &mut Work,
    line: &mut Line,
    term: u32,
    f: Arg,
    args: &Args,
    k: Cont,
) -> Result<Step, Memory>
    requires first { KnowsFirst cps.now tables.now }
    requires below { AreBelow work.old.next line.old.scope }
    ensures { IfOk result (IsLaid cps.now tables.now work.old work.new line.old line.new term (Node.Call f args.now k)) }
{
    let operator = prepare(alloc, cps, tables, work, &line.scope, &mut line.ops, f)?;
    let operands = prepare_list(alloc, cps, tables, work, &line.scope, &mut line.ops, args)?;
    if let Some(_own) = tail(&line.site, k) {
        return Ok(Step::Done(FrameEnd::Call {
            f: operator,
            args: operands,
        }));
    }
    let frame = await_return(alloc, tables, work, &line.scope, &line.site, k)?;
    line.ops.push(FrameOp::Push {
        kept: frame.kept,
        back: frame.back,
    })?;
    Ok(Step::Done(FrameEnd::Call {
        f: operator,
        args: operands,
    }))
}

/// A builtin.
pub fn lay_prim(
    alloc: Global,
    cps: &Cps,
    tables: &Tables,
    work: &mut Work,
    line: &mut Line,
    term: u32,
    p: Prim,
    args: &Args,
    k: Cont,
) -> Result<Step, Memory>
    requires first { KnowsFirst cps.now tables.now }
    requires below { AreBelow work.old.next line.old.scope }
    ensures { IfOk result (IsLaid cps.now tables.now work.old work.new line.old line.new term (Node.Prim p args.now k)) }
{
    let operands = prepare_list(alloc, cps, tables, work, &line.scope, &mut line.ops, args)?;
    let to = work.variable()?;
    line.ops.push(FrameOp::Prim {
        to,
        p,
        args: operands,
    })?;
    let step = give_new(alloc, cps, tables, work, line, term, k, to)?;
    Ok(step)
}

/// Gives a value.
pub fn lay_give(
    alloc: Global,
    cps: &Cps,
    tables: &Tables,
    work: &mut Work,
    line: &mut Line,
    term: u32,
    k: Cont,
    value: Arg,
) -> Result<Step, Memory>
    requires first { KnowsFirst cps.now tables.now }
    requires below { AreBelow work.old.next line.old.scope }
    ensures { IfOk result (IsLaid cps.now tables.now work.old work.new line.old line.new term (Node.Give k value)) }
{
    let given = prepare(alloc, cps, tables, work, &line.scope, &mut line.ops, value)?;
    let last = give_away(alloc, cps, tables, work, &line.scope, &line.site, k, given)?;
    Ok(Step::Done(last))
}

/// The end of the program.
pub fn lay_halt(
    alloc: Global,
    cps: &Cps,
    tables: &Tables,
    work: &mut Work,
    line: &mut Line,
    term: u32,
    value: Arg,
) -> Result<Step, Memory>
    requires first { KnowsFirst cps.now tables.now }
    requires below { AreBelow work.old.next line.old.scope }
    ensures { IfOk result (IsLaid cps.now tables.now work.old work.new line.old line.new term (Node.Halt value)) }
{
    let end = prepare(alloc, cps, tables, work, &line.scope, &mut line.ops, value)?;
    Ok(Step::Done(FrameEnd::Halt(end)))
}

/// A test, whose arms are blocks that see what is seen here.
pub fn lay_if(
    alloc: Global,
    cps: &Cps,
    tables: &Tables,
    work: &mut Work,
    line: &mut Line,
    term: u32,
    test: Arg,
    yes: u32,
    no: u32,
) -> Result<Step, Memory>
    requires first { KnowsFirst cps.now tables.now }
    requires below { AreBelow work.old.next line.old.scope }
    ensures { IfOk result (IsLaid cps.now tables.now work.old work.new line.old line.new term (Node.If test yes no)) }
{
    let tested = prepare(alloc, cps, tables, work, &line.scope, &mut line.ops, test)?;
    let yes = arm(alloc, work, &line.scope, &line.site, yes)?;
    let no = arm(alloc, work, &line.scope, &line.site, no)?;
    Ok(Step::Done(FrameEnd::If {
        test: tested,
        yes,
        no,
    }))
}

/// Asks for an arm.
fn arm(alloc: Global, work: &mut Work, scope: &Scope, site: &Site, term: u32) -> Result<u32, Memory>
    requires { AreBelow work.old.next scope.now }
    ensures { IfOk result (IsArm work.old work.new scope.now site.now term) }
{
    let scope = scope.copy(alloc)?;
    let site = site.copy(alloc)?;
    let block = work.request(Request::ArmOf { scope, site, term })?;
    Ok(block)
}

/// Reads a global.
pub fn lay_global_get(
    alloc: Global,
    cps: &Cps,
    tables: &Tables,
    work: &mut Work,
    line: &mut Line,
    term: u32,
    global: u32,
    k: Cont,
) -> Result<Step, Memory>
    requires { AreBelow work.old.next line.old.scope }
    ensures { IfOk result (IsLaid cps.now tables.now work.old work.new line.old line.new term (Node.GlobalGet global k)) }
{
    if (global as usize) >= cps.shared.globals.len() {
        return Err(Memory);
    }
    let to = work.variable()?;
    line.ops.push(FrameOp::GlobalGet { to, global })?;
    let step = give_new(alloc, cps, tables, work, line, term, k, to)?;
    Ok(step)
}

/// A global's first value.
pub fn lay_global_init(
    alloc: Global,
    cps: &Cps,
    tables: &Tables,
    work: &mut Work,
    line: &mut Line,
    term: u32,
    global: u32,
    value: Arg,
    k: Cont,
) -> Result<Step, Memory>
    requires first { KnowsFirst cps.now tables.now }
    requires below { AreBelow work.old.next line.old.scope }
    ensures { IfOk result (IsLaid cps.now tables.now work.old work.new line.old line.new term (Node.GlobalInit global value k)) }
{
    let Some(false) = is_procedure(cps, global) else {
        return Err(Memory);
    };
    let value = prepare(alloc, cps, tables, work, &line.scope, &mut line.ops, value)?;
    line.ops.push(FrameOp::GlobalPut {
        global,
        value,
        first: true,
    })?;
    let step = give_value(alloc, cps, tables, work, line, term, k, value)?;
    Ok(step)
}

/// Another value of a global.
pub fn lay_global_set(
    alloc: Global,
    cps: &Cps,
    tables: &Tables,
    work: &mut Work,
    line: &mut Line,
    term: u32,
    global: u32,
    value: Arg,
    k: Cont,
) -> Result<Step, Memory>
    requires first { KnowsFirst cps.now tables.now }
    requires below { AreBelow work.old.next line.old.scope }
    ensures { IfOk result (IsLaid cps.now tables.now work.old work.new line.old line.new term (Node.GlobalSet global value k)) }
{
    let Some(false) = is_procedure(cps, global) else {
        return Err(Memory);
    };
    let value = prepare(alloc, cps, tables, work, &line.scope, &mut line.ops, value)?;
    line.ops.push(FrameOp::GlobalPut {
        global,
        value,
        first: false,
    })?;
    let step = give_value(alloc, cps, tables, work, line, term, k, value)?;
    Ok(step)
}

/// A Join, whose body is a block of its own.
pub fn lay_join(
    alloc: Global,
    cps: &Cps,
    tables: &Tables,
    work: &mut Work,
    line: &mut Line,
    term: u32,
    k: Var,
    param: Var,
    body: u32,
    rest: u32,
) -> Result<Step, Memory>
    requires { AreBelow work.old.next line.old.scope }
    ensures { IfOk result (IsLaid cps.now tables.now work.old work.new line.old line.new term (Node.Join k param body rest)) }
{
    if rank_of(tables, rest) >= rank_of(tables, term) {
        return Err(Memory);
    }
    let vars = begin_with(alloc, tables, param, body)?;
    let site = line.site.copy(alloc)?;
    let block = work.request(Request::Begins {
        vars,
        site,
        term: body,
    })?;
    line.site.meet(Join {
        k,
        param,
        body,
        block,
    })?;
    Ok(Step::Next(rest))
}
