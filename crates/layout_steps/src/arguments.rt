// Arguments, with the closures that are made for them.
ghost use Rattle.std.specs.Prelude.{◌≡◌, ◌∷◌, [], ◌++◌, MatchOption, IfOk, OnOk};
ghost use Rattle.layout_relation.specs.Laid.{variables};
ghost use Rattle.layout_tables.specs.Sketches.{AreBelow, KnowsFirst};
ghost use Rattle.layout_steps.specs.Steps.{MakesNew, IsGlobalKind, IsSameArg, IsPrepared};

use cps_ir::{Arg, Args, Cps};
use frame_ir::{FrameOp, Place};
use layout_tables::{Request, Scope, Tables, Work, find_all, is_celled, lam_needs};
use std::alloc::Global;
use t_base::{GlobalKind, Memory, Var, Vars};

/// The operation that makes a closure of a LAMBDA, whose code is asked for.
pub fn closure(
    alloc: Global,
    tables: &Tables,
    work: &mut Work,
    scope: &Scope,
    l: u32,
    to: Var,
) -> Result<FrameOp, Memory>
    ensures { IfOk result (MakesNew tables.now scope.now work.old work.new l to) }
{
    if (l as usize) < tables.first {
        return Err(Memory);
    }
    let kept = find_all(alloc, scope, lam_needs(tables, l))?;
    let code = work.request(Request::CodeOf(l))?;
    Ok(FrameOp::Closure {
        to,
        code,
        kept: Vars::from_vec(kept),
        at: Place::Heap,
    })
}

/// Whether a global is a procedure, where it is there.
pub(crate) fn is_procedure(cps: &Cps, global: u32) -> Option<bool>
    ensures { MatchOption result (Unit {0}) (λ procedure. IsGlobalKind cps.now.shared global procedure) }
{
    match cps.shared.globals.get(global as usize) {
        Some(info) => Some(matches!(info.kind, GlobalKind::Proc)),
        None => None,
    }
}

/// An argument that needs no operation.
fn same_arg(cps: &Cps, tables: &Tables, scope: &Scope, arg: Arg) -> Option<Arg>
    ensures { MatchOption result (Unit {0}) (λ b. IsSameArg cps.now tables.now scope.now arg b) }
{
    match arg {
        Arg::Const(constant) => Some(Arg::Const(constant)),
        Arg::Builtin(builtin) => Some(Arg::Builtin(builtin)),
        Arg::Op(operation) => Some(Arg::Op(operation)),
        Arg::Var(x) => {
            if is_celled(tables, x) {
                return None;
            }
            match scope.find(x) {
                Some(at) => Some(Arg::Var(at)),
                None => None,
            }
        }
        Arg::Global(g) => match is_procedure(cps, g) {
            Some(true) => Some(Arg::Global(g)),
            _ => None,
        },
        Arg::Proc(_) => None,
    }
}

/// Makes an argument ready: a LAMBDA is a closure, which is made behind the operations so far.
pub(crate) fn prepare(
    alloc: Global,
    cps: &Cps,
    tables: &Tables,
    work: &mut Work,
    scope: &Scope,
    ops: &mut Vec<FrameOp>,
    arg: Arg,
) -> Result<Arg, Memory>
    requires first { KnowsFirst cps.now tables.now }
    requires below { AreBelow work.old.next scope.now }
    ensures { IfOk result (λ b. IsPrepared cps.now tables.now scope.now work.old work.new (arg ∷ []) ops.old.items ops.new.items (b ∷ [])) }
{
    if let Arg::Proc(l) = arg {
        let to = work.variable()?;
        let made = closure(alloc, tables, work, scope, l, to)?;
        ops.push(made)?;
        return Ok(Arg::Var(to));
    }
    match same_arg(cps, tables, scope, arg) {
        Some(same) => Ok(same),
        None => Err(Memory),
    }
}

/// Makes arguments ready, in order.
pub(crate) fn prepare_all(
    alloc: Global,
    cps: &Cps,
    tables: &Tables,
    work: &mut Work,
    scope: &Scope,
    ops: &mut Vec<FrameOp>,
    args: &[Arg],
) -> Result<Vec<Arg>, Memory>
    requires first { KnowsFirst cps.now tables.now }
    requires below { AreBelow work.old.next scope.now }
    ensures { IfOk result (λ bs. IsPrepared cps.now tables.now scope.now work.old work.new args.now ops.old.items ops.new.items bs.items) }
{
    let mut ready = Vec::new(alloc);
    for arg in args {
        let one = prepare(alloc, cps, tables, work, scope, ops, *arg)?;
        ready.push(one)?;
    }
    Ok(ready)
}

/// Puts variables last, as arguments.
pub(crate) fn push_variables(args: &mut Vec<Arg>, vars: &[Var]) -> Result<(), Memory>
    ensures { OnOk result (args.new.items ≡ args.old.items ++ variables vars.now) }
{
    for var in vars {
        args.push(Arg::Var(*var))?;
    }
    Ok(())
}

/// Makes the arguments of a term ready, in order.
pub(crate) fn prepare_list(
    alloc: Global,
    cps: &Cps,
    tables: &Tables,
    work: &mut Work,
    scope: &Scope,
    ops: &mut Vec<FrameOp>,
    args: &Args,
) -> Result<Args, Memory>
    requires first { KnowsFirst cps.now tables.now }
    requires below { AreBelow work.old.next scope.now }
    ensures { IfOk result (λ bs. IsPrepared cps.now tables.now scope.now work.old work.new args.now ops.old.items ops.new.items bs) }
{
    let ready = prepare_all(alloc, cps, tables, work, scope, ops, args.as_slice())?;
    Ok(Args::from_vec(ready))
}
