// Assigned variables, which a Give alone binds, and the names that stand in their place.
ghost use Rattle.std.specs.Prelude.{◌≡◌, IfOk, length, map};
ghost use Rattle.cps_conversion.specs.Conversion.{variables};
ghost use Rattle.cps_convert.specs.Naming.{IsNamed, AreNamed, unset_by, BindsOne, BindsAll, SetsOne, SetsAll};

use crate::conversion::Conversion;
use cps_ir::{Arg, Cont, Term};
use cps_walk::is_marked;
use std::alloc::Global;
use t_base::{Const, Memory, Var};

/// What is bound in place of a variable: a new one where it is assigned, else itself.
pub(crate) fn name_for(made: &mut Conversion, marks: &[bool], var: Var) -> Result<Var, Memory>
    ensures { IfOk result (IsNamed made.old made.new marks.now var) }
{
    if is_marked(marks, var.0) {
        let name = made.fresh()?;
        return Ok(name);
    }
    Ok(var)
}

/// The same of variables in order.
pub(crate) fn names_for(
    alloc: Global,
    made: &mut Conversion,
    marks: &[bool],
    vars: &[Var],
) -> Result<Vec<Var>, Memory>
    ensures { IfOk result (λ names. AreNamed made.old made.new marks.now vars.now names.items) }
{
    let mut names = Vec::new(alloc);
    'vars: for var in vars {
        let name = name_for(made, marks, *var)?;
        names.push(name)?;
    }
    Ok(names)
}

/// Variables as arguments.
pub(crate) fn arguments(alloc: Global, vars: &[Var]) -> Result<Vec<Arg>, Memory>
    ensures { IfOk result (λ args. args.items ≡ variables vars.now) }
{
    let mut args = Vec::new(alloc);
    'vars: for var in vars {
        args.push(Arg::Var(*var))?;
    }
    Ok(args)
}

/// What the names of a LABELS are given first: Nil where they are assigned.
pub(crate) fn unset(alloc: Global, marks: &[bool], vars: &[Var]) -> Result<Vec<Arg>, Memory>
    ensures { IfOk result (λ args. args.items ≡ map (unset_by marks.now) vars.now) }
{
    let mut args = Vec::new(alloc);
    'vars: for var in vars {
        args.push(unset_arg(marks, *var))?;
    }
    Ok(args)
}

fn unset_arg(marks: &[bool], var: Var) -> Arg
    ensures { result ≡ unset_by marks.now var }
{
    if is_marked(marks, var.0) {
        return Arg::Const(Const::Nil);
    }
    Arg::Var(var)
}

/// Binds a variable to its argument, where it is assigned, in front of the term at a place.
pub(crate) fn bind_one(
    made: &mut Conversion,
    marks: &[bool],
    var: Var,
    value: Arg,
    place: u32,
) -> Result<u32, Memory>
    ensures { IfOk result (BindsOne made.old made.new marks.now var value place) }
{
    if is_marked(marks, var.0) {
        let start = made.add(Term::Give {
            k: Cont::Lam {
                param: var,
                body: place,
            },
            value,
        })?;
        return Ok(start);
    }
    Ok(place)
}

/// Binds each of the variables that is assigned to its argument, from left to right, in front of the term at a place.
pub(crate) fn bind_assigned(
    made: &mut Conversion,
    marks: &[bool],
    vars: &[Var],
    args: &[Arg],
    place: u32,
) -> Result<u32, Memory>
    ensures { length vars.now ≡ length args.now → IfOk result (BindsAll made.old made.new marks.now vars.now args.now place) }
{
    let mut start = place;
    let mut at = vars.len().min(args.len());
    'vars: while at > 0 {
        at -= 1;
        start = bind_one(made, marks, vars[at], args[at], start)?;
    }
    Ok(start)
}

/// Sets a variable to what its name stands for, where it is assigned, in front of the term at a place.
fn set_one(
    made: &mut Conversion,
    marks: &[bool],
    var: Var,
    name: Var,
    place: u32,
) -> Result<u32, Memory>
    ensures { IfOk result (SetsOne made.old made.new marks.now var name place) }
{
    if is_marked(marks, var.0) {
        let unused = made.fresh()?;
        let start = made.add(Term::Set {
            var,
            value: Arg::Var(name),
            k: Cont::Lam {
                param: unused,
                body: place,
            },
        })?;
        return Ok(start);
    }
    Ok(place)
}

/// Sets each of the variables that is assigned to what its name stands for, from left to right, in front of the term at a place.
pub(crate) fn set_assigned(
    made: &mut Conversion,
    marks: &[bool],
    vars: &[Var],
    names: &[Var],
    place: u32,
) -> Result<u32, Memory>
    ensures { length vars.now ≡ length names.now → IfOk result (SetsAll made.old made.new marks.now vars.now names.now place) }
{
    let mut start = place;
    let mut at = vars.len().min(names.len());
    'vars: while at > 0 {
        at -= 1;
        start = set_one(made, marks, vars[at], names[at], start)?;
    }
    Ok(start)
}
