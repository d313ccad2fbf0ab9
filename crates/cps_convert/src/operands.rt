// Operands: arguments, and the nodes whose values they are.
ghost use Rattle.std.specs.Prelude.{◌≡◌, IfOk, length};
ghost use Rattle.cps_convert.specs.Claims.{HasMarks};
ghost use Rattle.cps_convert.specs.Operands.{ready_of, IsOperandAdded, AreOperandsAdded, IsLetAdded, AreLetsAdded};

use crate::conversion::Conversion;
use crate::ready::{node_at, ready};
use cps_ir::Arg;
use cps_walk::is_marked;
use std::alloc::Global;
use t_base::{Memory, Var};
use t_core::UnitCore;

/// A node of the form under way, and the variable that its value is to go to.
#[derive(Clone, Copy)]
pub struct Job {
    pub node: u32,
    pub var: Var,
}

/// The argument that a node is by itself, where the node is there and is ready.
fn ready_at(unit: &UnitCore, marks: &[bool], form: u32, key: u32) -> Option<Arg>
    ensures { HasMarks unit.now marks.now → result ≡ ready_of unit.now form key }
{
    let node = node_at(unit, form, key)?;
    ready(unit, marks, node)
}

/// The argument for a node: the one that it is by itself, or else a new variable, with the job that gives it its value.
pub(crate) fn operand(
    unit: &UnitCore,
    marks: &[bool],
    form: u32,
    made: &mut Conversion,
    key: u32,
    jobs: &mut Vec<Job>,
) -> Result<Arg, Memory>
    ensures { HasMarks unit.now marks.now → IfOk result (λ a. IsOperandAdded unit.now form made.old made.new key a jobs.old.items jobs.new.items) }
{
    match ready_at(unit, marks, form, key) {
        Some(arg) => Ok(arg),
        None => {
            let var = made.fresh()?;
            jobs.push(Job { node: key, var })?;
            Ok(Arg::Var(var))
        }
    }
}

/// The arguments for nodes, from left to right.
pub(crate) fn operands(
    alloc: Global,
    unit: &UnitCore,
    marks: &[bool],
    form: u32,
    made: &mut Conversion,
    keys: &[u32],
    jobs: &mut Vec<Job>,
) -> Result<Vec<Arg>, Memory>
    ensures { HasMarks unit.now marks.now → IfOk result (λ args. AreOperandsAdded unit.now form made.old made.new keys.now args.items jobs.old.items jobs.new.items) }
{
    let mut args = Vec::new(alloc);
    'keys: for key in keys {
        let arg = operand(unit, marks, form, made, *key, jobs)?;
        args.push(arg)?;
    }
    Ok(args)
}

/// The argument for the value of a LET: of a variable that isn't assigned, the variable itself, to which the value goes.
fn let_operand(
    unit: &UnitCore,
    marks: &[bool],
    form: u32,
    made: &mut Conversion,
    var: Var,
    key: u32,
    jobs: &mut Vec<Job>,
) -> Result<Arg, Memory>
    ensures { HasMarks unit.now marks.now → IfOk result (λ a. IsLetAdded unit.now form made.old made.new var key a jobs.old.items jobs.new.items) }
{
    if is_marked(marks, var.0) {
        let arg = operand(unit, marks, form, made, key, jobs)?;
        return Ok(arg);
    }
    jobs.push(Job { node: key, var })?;
    Ok(Arg::Var(var))
}

/// The arguments for the values of a LET, from left to right.
pub(crate) fn let_operands(
    alloc: Global,
    unit: &UnitCore,
    marks: &[bool],
    form: u32,
    made: &mut Conversion,
    vars: &[Var],
    keys: &[u32],
    jobs: &mut Vec<Job>,
) -> Result<Vec<Arg>, Memory>
    ensures { HasMarks unit.now marks.now → length vars.now ≡ length keys.now → IfOk result (λ args. AreLetsAdded unit.now form made.old made.new vars.now keys.now args.items jobs.old.items jobs.new.items) }
{
    let mut args = Vec::new(alloc);
    let mut at = 0;
    'vars: while at < vars.len() && at < keys.len() {
        let arg = let_operand(unit, marks, form, made, vars[at], keys[at], jobs)?;
        args.push(arg)?;
        at += 1;
    }
    Ok(args)
}
