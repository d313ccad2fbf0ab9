// CATCHes and their ends.
ghost use Rattle.std.specs.Prelude.{◌≡◌, ◌∷◌, [], ◌<◌, ℕ, IfOk};
ghost use Rattle.cps_ir.specs.declared.terms.Term.TheVariants as Node;
ghost use Rattle.layout_tables.specs.Sketches.{AreBelow, KnowsFirst};
ghost use Rattle.layout_steps.specs.Steps.{IsLaid};

use crate::arguments::prepare;
use crate::frames::{await_return, tail};
use crate::giving::{give_value, is_fresh};
use cps_ir::{Arg, Cont, Cps};
use frame_ir::FrameOp;
use layout_tables::{Line, Opened, Request, Step, Tables, Work, is_celled};
use std::alloc::Global;
use t_base::{Memory, Var};

/// A CATCH.
pub fn lay_catch(
    alloc: Global,
    cps: &Cps,
    tables: &Tables,
    work: &mut Work,
    line: &mut Line,
    term: u32,
    var: Var,
    body: u32,
    k: Cont,
) -> Result<Step, Memory>
    requires { AreBelow work.old.next line.old.scope }
    ensures { IfOk result (IsLaid cps.now tables.now work.old work.new line.old line.new term (Node.Catch var body k)) }
{
    if !is_fresh(tables, &line.scope, &line.site, var) {
        return Err(Memory);
    }
    if is_celled(tables, var) {
        return Err(Memory);
    }
    if let Some(_own) = tail(&line.site, k) {
        let back = work.request(Request::PassesOn)?;
        let to = work.variable()?;
        line.ops.push(FrameOp::CatchOpen { to, back })?;
        line.scope.hold(var, to)?;
        line.site.open(Opened::Bare)?;
        return Ok(Step::Next(body));
    }
    let frame = await_return(alloc, tables, work, &line.scope, &line.site, k)?;
    let back = frame.back;
    line.ops.push(FrameOp::Push {
        kept: frame.kept,
        back,
    })?;
    let to = work.variable()?;
    line.ops.push(FrameOp::CatchOpen { to, back })?;
    line.scope.hold(var, to)?;
    line.site.open(Opened::Framed)?;
    Ok(Step::Next(body))
}

/// The end of the innermost CATCH.
pub fn lay_uncatch(
    alloc: Global,
    cps: &Cps,
    tables: &Tables,
    work: &mut Work,
    line: &mut Line,
    term: u32,
    k: Cont,
    value: Arg,
) -> Result<Step, Memory>
    requires first { KnowsFirst cps.now tables.now }
    requires below { AreBelow work.old.next line.old.scope }
    ensures { IfOk result (IsLaid cps.now tables.now work.old work.new line.old line.new term (Node.Uncatch k value)) }
{
    let given = prepare(alloc, cps, tables, work, &line.scope, &mut line.ops, value)?;
    match line.site.close() {
        Some(Opened::Bare) => {
            line.ops.push(FrameOp::CatchClose)?;
            let step = give_value(alloc, cps, tables, work, line, term, k, given)?;
            Ok(step)
        }
        Some(Opened::Framed) => {
            line.ops.push(FrameOp::CatchClose)?;
            line.ops.push(FrameOp::Pop)?;
            let step = give_value(alloc, cps, tables, work, line, term, k, given)?;
            Ok(step)
        }
        None => Err(Memory),
    }
}
