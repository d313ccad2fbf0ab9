// Cells.
ghost use Rattle.std.specs.Prelude.{◌≡◌, ◌∷◌, [], ◌<◌, ℕ, IfOk};
ghost use Rattle.cps_ir.specs.declared.terms.Term.TheVariants as Node;
ghost use Rattle.layout_tables.specs.Sketches.{AreBelow, KnowsFirst};
ghost use Rattle.layout_steps.specs.Steps.{IsLaid};

use crate::arguments::prepare;
use crate::giving::{give_new, give_value, is_fresh};
use cps_ir::{Arg, Cont, Cps};
use frame_ir::FrameOp;
use layout_tables::{Line, Step, Tables, Work, is_celled};
use std::alloc::Global;
use t_base::{Memory, Var};

/// A new cell.
pub fn lay_cell(
    alloc: Global,
    cps: &Cps,
    tables: &Tables,
    work: &mut Work,
    line: &mut Line,
    term: u32,
    var: Var,
    value: Arg,
    rest: u32,
) -> Result<Step, Memory>
    requires first { KnowsFirst cps.now tables.now }
    requires below { AreBelow work.old.next line.old.scope }
    ensures { IfOk result (IsLaid cps.now tables.now work.old work.new line.old line.new term (Node.Cell var value rest)) }
{
    if !is_fresh(tables, &line.scope, &line.site, var) {
        return Err(Memory);
    }
    if !is_celled(tables, var) {
        return Err(Memory);
    }
    let value = prepare(alloc, cps, tables, work, &line.scope, &mut line.ops, value)?;
    let to = work.variable()?;
    line.ops.push(FrameOp::Cell { to, value })?;
    line.scope.hold(var, to)?;
    Ok(Step::Next(rest))
}

/// Reads a cell.
pub fn lay_cell_get(
    alloc: Global,
    cps: &Cps,
    tables: &Tables,
    work: &mut Work,
    line: &mut Line,
    term: u32,
    var: Var,
    k: Cont,
) -> Result<Step, Memory>
    requires { AreBelow work.old.next line.old.scope }
    ensures { IfOk result (IsLaid cps.now tables.now work.old work.new line.old line.new term (Node.CellGet var k)) }
{
    if !is_celled(tables, var) {
        return Err(Memory);
    }
    let Some(cell) = line.scope.find(var) else {
        return Err(Memory);
    };
    let to = work.variable()?;
    line.ops.push(FrameOp::CellGet { to, cell })?;
    let step = give_new(alloc, cps, tables, work, line, term, k, to)?;
    Ok(step)
}

/// Puts a value into a cell.
pub fn lay_cell_set(
    alloc: Global,
    cps: &Cps,
    tables: &Tables,
    work: &mut Work,
    line: &mut Line,
    term: u32,
    var: Var,
    value: Arg,
    k: Cont,
) -> Result<Step, Memory>
    requires first { KnowsFirst cps.now tables.now }
    requires below { AreBelow work.old.next line.old.scope }
    ensures { IfOk result (IsLaid cps.now tables.now work.old work.new line.old line.new term (Node.CellSet var value k)) }
{
    if !is_celled(tables, var) {
        return Err(Memory);
    }
    let value = prepare(alloc, cps, tables, work, &line.scope, &mut line.ops, value)?;
    match line.scope.find(var) {
        Some(cell) => {
            line.ops.push(FrameOp::CellSet { cell, value })?;
            let step = give_value(alloc, cps, tables, work, line, term, k, value)?;
            Ok(step)
        }
        None => Err(Memory),
    }
}
