// Terms that are no more than their operands and a continuation.
ghost use Rattle.std.specs.Prelude.{◌≡◌, Bool, IfOk, if◌then◌else◌};
ghost use Rattle.t_core.specs.declared.forms.Core.TheVariants as Node;
ghost use Rattle.cps_ir.specs.declared.args.Arg.TheVariants as Argument;
ghost use Rattle.cps_ir.specs.declared.terms.Term.TheVariants as Step;
ghost use Rattle.cps_conversion.specs.Conversion.{is_proc};
ghost use Rattle.cps_convert.specs.Claims.{HasMarks};
ghost use Rattle.cps_convert.specs.Kinds.{LastMade, IsNameOf, Joined, Given};

use crate::conversion::Conversion;
use crate::operands::{Job, operand, operands};
use crate::ready::is_proc;
use cps_ir::{Arg, Args, Cont, Term};
use std::alloc::Global;
use t_base::{Keys, Memory, Prim, Var, Vars};
use t_core::{Core, UnitCore};

/// The term that gives the value of a global.
fn global(unit: &UnitCore, g: u32, k: Cont) -> Term
    ensures { result ≡ (if is_proc unit.now g then Step.Give k (Argument.Global g) else Step.GlobalGet g k) }
{
    if is_proc(unit, g) {
        return Term::Give {
            k,
            value: Arg::Global(g),
        };
    }
    Term::GlobalGet { global: g, k }
}

/// The term of an assignment of a variable, with the job of its value.
fn set_local(
    unit: &UnitCore,
    marks: &[bool],
    form: u32,
    made: &mut Conversion,
    var: Var,
    key: u32,
    k: Cont,
    jobs: &mut Vec<Job>,
) -> Result<u32, Memory>
    ensures { HasMarks unit.now marks.now → IfOk result (LastMade unit.now form made.old made.new (Node.SetLocal var key) k jobs.old.items jobs.new.items) }
{
    let value = operand(unit, marks, form, made, key, jobs)?;
    let place = made.add(Term::Set { var, value, k })?;
    Ok(place)
}

/// The term of an assignment of a global, with the job of its value.
fn set_global(
    unit: &UnitCore,
    marks: &[bool],
    form: u32,
    made: &mut Conversion,
    global: u32,
    key: u32,
    k: Cont,
    jobs: &mut Vec<Job>,
) -> Result<u32, Memory>
    ensures { HasMarks unit.now marks.now → IfOk result (LastMade unit.now form made.old made.new (Node.SetGlobal global key) k jobs.old.items jobs.new.items) }
{
    let value = operand(unit, marks, form, made, key, jobs)?;
    let place = made.add(Term::GlobalSet { global, value, k })?;
    Ok(place)
}

/// The term of a call, with the jobs of its operator and operands.
fn call(
    alloc: Global,
    unit: &UnitCore,
    marks: &[bool],
    form: u32,
    made: &mut Conversion,
    operator: u32,
    keys: &[u32],
    k: Cont,
    jobs: &mut Vec<Job>,
) -> Result<u32, Memory>
    ensures { (tail : Bool) → HasMarks unit.now marks.now → IfOk result (LastMade unit.now form made.old made.new (Node.Call operator keys.now tail) k jobs.old.items jobs.new.items) }
{
    let f = operand(unit, marks, form, made, operator, jobs)?;
    let args = operands(alloc, unit, marks, form, made, keys, jobs)?;
    let place = made.add(Term::Call {
        f,
        args: Args::from_vec(args),
        k,
    })?;
    Ok(place)
}

/// The term of a builtin, with the jobs of its operands.
fn prim(
    alloc: Global,
    unit: &UnitCore,
    marks: &[bool],
    form: u32,
    made: &mut Conversion,
    p: Prim,
    keys: &[u32],
    k: Cont,
    jobs: &mut Vec<Job>,
) -> Result<u32, Memory>
    ensures { HasMarks unit.now marks.now → IfOk result (LastMade unit.now form made.old made.new (Node.Prim p keys.now) k jobs.old.items jobs.new.items) }
{
    let args = operands(alloc, unit, marks, form, made, keys, jobs)?;
    let place = made.add(Term::Prim {
        p,
        args: Args::from_vec(args),
        k,
    })?;
    Ok(place)
}

/// The term that stands for a node once its operands have their values, with their jobs. A node of a kind that needs more has none, and is
/// answered by want of memory.
pub(crate) fn last_term(
    alloc: Global,
    unit: &UnitCore,
    marks: &[bool],
    form: u32,
    made: &mut Conversion,
    core: &Core,
    k: Cont,
    jobs: &mut Vec<Job>,
) -> Result<u32, Memory>
    ensures { HasMarks unit.now marks.now → IfOk result (LastMade unit.now form made.old made.new core.now k jobs.old.items jobs.new.items) }
{
    match core {
        Core::Const(c) => {
            let place = made.add(Term::Give {
                k,
                value: Arg::Const(*c),
            })?;
            Ok(place)
        }
        Core::Local(v) => {
            let place = made.add(Term::Give {
                k,
                value: Arg::Var(*v),
            })?;
            Ok(place)
        }
        Core::Global(g) => {
            let place = made.add(global(unit, *g, k))?;
            Ok(place)
        }
        Core::Builtin(b) => {
            let place = made.add(Term::Give {
                k,
                value: Arg::Builtin(*b),
            })?;
            Ok(place)
        }
        Core::Op(o) => {
            let place = made.add(Term::Give {
                k,
                value: Arg::Op(*o),
            })?;
            Ok(place)
        }
        Core::SetLocal { var, value } => {
            let place = set_local(unit, marks, form, made, *var, *value, k, jobs)?;
            Ok(place)
        }
        Core::SetGlobal { global, value } => {
            let place = set_global(unit, marks, form, made, *global, *value, k, jobs)?;
            Ok(place)
        }
        Core::Call {
            operator,
            operands,
            ..
        } => {
            let place = call(
                alloc,
                unit,
                marks,
                form,
                made,
                *operator,
                operands.as_slice(),
                k,
                jobs,
            )?;
            Ok(place)
        }
        Core::Prim { prim: p, operands } => {
            let place = prim(
                alloc,
                unit,
                marks,
                form,
                made,
                *p,
                operands.as_slice(),
                k,
                jobs,
            )?;
            Ok(place)
        }
        _ => Err(Memory),
    }
}

/// A name for a continuation that is needed twice: a new one where it is written out.
pub(crate) fn named(made: &mut Conversion, k: Cont) -> Result<Cont, Memory>
    ensures { IfOk result (IsNameOf made.old made.new k) }
{
    match k {
        Cont::Var(_) => Ok(k),
        Cont::Lam { .. } => {
            let name = made.fresh()?;
            Ok(Cont::Var(name))
        }
    }
}

/// Binds the name of a continuation in front of the term at a place, where the continuation is written out.
pub(crate) fn joined(made: &mut Conversion, k: Cont, name: Cont, rest: u32) -> Result<u32, Memory>
    ensures { IfOk result (Joined made.old made.new k name rest) }
{
    match (k, name) {
        (Cont::Lam { param, body }, Cont::Var(j)) => {
            let place = made.add(Term::Join {
                k: j,
                param,
                body,
                rest,
            })?;
            Ok(place)
        }
        _ => Ok(rest),
    }
}

/// Gives a new closure of a procedure to a continuation: a variable that it goes to is a name for it.
pub(crate) fn give_procedure(
    alloc: Global,
    made: &mut Conversion,
    k: Cont,
    l: u32,
) -> Result<u32, Memory>
    ensures { IfOk result (Given made.old made.new k l) }
{
    match k {
        Cont::Var(_) => {
            let place = made.add(Term::Give {
                k,
                value: Arg::Proc(l),
            })?;
            Ok(place)
        }
        Cont::Lam { param, body } => {
            let place = made.add(Term::Labels {
                vars: Vars::from_vec(vec![in alloc; param]?),
                lams: Keys::from_vec(vec![in alloc; l]?),
                body,
            })?;
            Ok(place)
        }
    }
}
