// What a term names: its arguments, its procedures, the variables that it uses.
ghost use Rattle.std.specs.Prelude.{◌≡◌, ◌++◌, [], ◌∷◌, filter_map, OnOk, IfOk, Some};
ghost use Rattle.cps_ir.specs.Parts.{proc_of, lams_of, arg_variables, cont_variable, place_variable, used_by};
ghost use Rattle.cps_ir.specs.Terms.{args_of, cont_of};

use cps_ir::{Arg, Cont, Term};
use std::alloc::Global;
use t_base::Memory;

fn push_args(from: &[Arg], args: &mut Vec<Arg>) -> Result<(), Memory>
    ensures { OnOk result (args.new.items ≡ args.old.items ++ from.now) }
{
    for arg in from {
        args.push(*arg)?;
    }
    Ok(())
}

/// Puts the arguments of a term last, the operator of a call first.
fn push_operands(term: &Term, args: &mut Vec<Arg>) -> Result<(), Memory>
    ensures { OnOk result (args.new.items ≡ args.old.items ++ args_of term.now) }
{
    match term {
        Term::Call {
            f,
            args: operands,
            ..
        } => {
            args.push(*f)?;
            push_args(operands.as_slice(), args)
        }
        Term::Prim { args: operands, .. } => push_args(operands.as_slice(), args),
        Term::If { test, .. } => Ok(args.push(*test)?),
        Term::Give { value, .. } => Ok(args.push(*value)?),
        Term::Set { value, .. } => Ok(args.push(*value)?),
        Term::Cell { value, .. } => Ok(args.push(*value)?),
        Term::CellSet { value, .. } => Ok(args.push(*value)?),
        Term::GlobalInit { value, .. } => Ok(args.push(*value)?),
        Term::GlobalSet { value, .. } => Ok(args.push(*value)?),
        Term::Uncatch { value, .. } => Ok(args.push(*value)?),
        Term::Object { proc, .. } => Ok(args.push(*proc)?),
        Term::Halt { value } => Ok(args.push(*value)?),
        Term::Labels { .. }
        | Term::Join { .. }
        | Term::CellGet { .. }
        | Term::GlobalGet { .. }
        | Term::Catch { .. } => Ok(()),
    }
}

/// The arguments of a term, the operator of a call first.
fn operands(alloc: Global, term: &Term) -> Result<Vec<Arg>, Memory>
    ensures { IfOk result (λ args. args.items ≡ args_of term.now) }
{
    let mut args = Vec::new(alloc);
    push_operands(term, &mut args)?;
    Ok(args)
}

// ---- procedures

fn push_proc(arg: Arg, lams: &mut Vec<u32>) -> Result<(), Memory>
    ensures { OnOk result (lams.new.items ≡ lams.old.items ++ filter_map proc_of (arg ∷ [])) }
{
    if let Arg::Proc(l) = arg {
        lams.push(l)?;
    }
    Ok(())
}

fn push_procs(args: &[Arg], lams: &mut Vec<u32>) -> Result<(), Memory>
    ensures { OnOk result (lams.new.items ≡ lams.old.items ++ filter_map proc_of args.now) }
{
    for arg in args {
        push_proc(*arg, lams)?;
    }
    Ok(())
}

fn push_places(places: &[u32], lams: &mut Vec<u32>) -> Result<(), Memory>
    ensures { OnOk result (lams.new.items ≡ lams.old.items ++ places.now) }
{
    for place in places {
        lams.push(*place)?;
    }
    Ok(())
}

/// Puts the places of the procedures that a term names last.
fn push_lams(alloc: Global, term: &Term, lams: &mut Vec<u32>) -> Result<(), Memory>
    ensures { OnOk result (lams.new.items ≡ lams.old.items ++ lams_of term.now) }
{
    match term {
        Term::Labels { lams: labels, .. } => push_places(labels.as_slice(), lams),
        Term::Object { proc, methods, .. } => {
            push_proc(*proc, lams)?;
            push_places(methods.as_slice(), lams)
        }
        _ => {
            let args = operands(alloc, term)?;
            push_procs(&args, lams)
        }
    }
}

/// The places of the procedures that a term names.
pub(crate) fn named_lams(alloc: Global, term: &Term) -> Result<Vec<u32>, Memory>
    ensures { IfOk result (λ lams. lams.items ≡ lams_of term.now) }
{
    let mut lams = Vec::new(alloc);
    push_lams(alloc, term, &mut lams)?;
    Ok(lams)
}

// ---- variables

fn push_variable(arg: Arg, wanted: &mut Vec<u32>) -> Result<(), Memory>
    ensures { OnOk result (wanted.new.items ≡ wanted.old.items ++ arg_variables (arg ∷ [])) }
{
    if let Arg::Var(x) = arg {
        wanted.push(x.0)?;
    }
    Ok(())
}

fn push_variables(args: &[Arg], wanted: &mut Vec<u32>) -> Result<(), Memory>
    ensures { OnOk result (wanted.new.items ≡ wanted.old.items ++ arg_variables args.now) }
{
    for arg in args {
        push_variable(*arg, wanted)?;
    }
    Ok(())
}

fn push_place(term: &Term, wanted: &mut Vec<u32>) -> Result<(), Memory>
    ensures { OnOk result (wanted.new.items ≡ wanted.old.items ++ place_variable term.now) }
{
    match term {
        Term::Set { var, .. } => Ok(wanted.push(var.0)?),
        Term::CellGet { cell, .. } => Ok(wanted.push(cell.0)?),
        Term::CellSet { cell, .. } => Ok(wanted.push(cell.0)?),
        _ => Ok(()),
    }
}

/// The continuation of a term.
pub(crate) fn cont_of(term: &Term) -> Option<Cont>
    ensures { result ≡ cont_of term.now }
{
    match term {
        Term::Call { k, .. } => Some(*k),
        Term::Prim { k, .. } => Some(*k),
        Term::Give { k, .. } => Some(*k),
        Term::Set { k, .. } => Some(*k),
        Term::CellGet { k, .. } => Some(*k),
        Term::CellSet { k, .. } => Some(*k),
        Term::GlobalGet { k, .. } => Some(*k),
        Term::GlobalInit { k, .. } => Some(*k),
        Term::GlobalSet { k, .. } => Some(*k),
        Term::Catch { k, .. } => Some(*k),
        Term::Uncatch { k, .. } => Some(*k),
        Term::Object { k, .. } => Some(*k),
        Term::If { .. }
        | Term::Labels { .. }
        | Term::Join { .. }
        | Term::Cell { .. }
        | Term::Halt { .. } => None,
    }
}

fn push_k(k: Option<Cont>, wanted: &mut Vec<u32>) -> Result<(), Memory>
    ensures { OnOk result (wanted.new.items ≡ wanted.old.items ++ cont_variable k) }
{
    match k {
        Some(Cont::Var(x)) => Ok(wanted.push(x.0)?),
        Some(Cont::Lam { .. }) => Ok(()),
        None => Ok(()),
    }
}

/// Puts the variables that a term uses last.
pub(crate) fn push_used(alloc: Global, term: &Term, wanted: &mut Vec<u32>) -> Result<(), Memory>
    ensures { OnOk result (wanted.new.items ≡ wanted.old.items ++ used_by term.now) }
{
    let args = operands(alloc, term)?;
    push_variables(&args, wanted)?;
    push_place(term, wanted)?;
    push_k(cont_of(term), wanted)
}
