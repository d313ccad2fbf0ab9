// The variables that a program binds.
ghost use Rattle.std.specs.Prelude.{◌≡◌, ◌≤◌, ◌^◌, ℕ, ◌++◌, [], OnOk, Some};
ghost use Rattle.std.specs.List.{flat_map};
ghost use Rattle.cps_ir.specs.Parts.{own_binders, lam_binders, cont_parts};
ghost use Rattle.cps_order.specs.Order.{tally, listed_binders, numbers_of, bound_by, AreNamed};

use crate::naming::name_places;
use cps_ir::{Cont, Cps, Lam, Term};
use std::alloc::Global;
use t_base::{Memory, Var};

const MOST: usize = 4294967296;

fn push_vars(vars: &[Var], out: &mut Vec<u32>) -> Result<(), Memory>
    ensures { OnOk result (out.new.items ≡ out.old.items ++ numbers_of vars.now) }
{
    for var in vars {
        out.push(var.0)?;
    }
    Ok(())
}

/// Puts the parameter of a continuation last, where it is written out.
fn push_param(k: Cont, out: &mut Vec<u32>) -> Result<(), Memory>
    ensures { OnOk result (out.new.items ≡ out.old.items ++ bound_by (cont_parts [] (Some k))) }
{
    if let Cont::Lam { param, .. } = k {
        out.push(param.0)?;
    }
    Ok(())
}

/// Puts the variables that a term binds itself last.
fn push_binders(term: &Term, out: &mut Vec<u32>) -> Result<(), Memory>
    ensures { OnOk result (out.new.items ≡ out.old.items ++ own_binders term.now) }
{
    match term {
        Term::If { .. } | Term::Halt { .. } => Ok(()),
        Term::Labels { vars, .. } => push_vars(vars.as_slice(), out),
        Term::Join { k, param, .. } => {
            out.push(param.0)?;
            out.push(k.0)?;
            Ok(())
        }
        Term::Cell { var, .. } => Ok(out.push(var.0)?),
        Term::Catch { escape, k, .. } => {
            out.push(escape.0)?;
            push_param(*k, out)
        }
        Term::Call { k, .. } => push_param(*k, out),
        Term::Prim { k, .. } => push_param(*k, out),
        Term::Give { k, .. } => push_param(*k, out),
        Term::Set { k, .. } => push_param(*k, out),
        Term::CellGet { k, .. } => push_param(*k, out),
        Term::CellSet { k, .. } => push_param(*k, out),
        Term::GlobalGet { k, .. } => push_param(*k, out),
        Term::GlobalInit { k, .. } => push_param(*k, out),
        Term::GlobalSet { k, .. } => push_param(*k, out),
        Term::Uncatch { k, .. } => push_param(*k, out),
        Term::Object { k, .. } => push_param(*k, out),
    }
}

/// Marks the variables that a term binds itself.
fn bind_term(alloc: Global, marks: &mut Vec<bool>, term: &Term) -> Result<(), Memory>
    ensures { OnOk result (AreNamed (2 ^ 32) (own_binders term.now) marks.old.items marks.new.items) }
{
    let mut vars = Vec::new(alloc);
    push_binders(term, &mut vars)?;
    name_places(marks, MOST, &vars)?;
    Ok(())
}

/// Marks the parameters and the `k` of a procedure.
fn bind_lam(alloc: Global, marks: &mut Vec<bool>, lam: &Lam) -> Result<(), Memory>
    ensures { OnOk result (AreNamed (2 ^ 32) (lam_binders lam.now) marks.old.items marks.new.items) }
{
    let mut vars = Vec::new(alloc);
    push_vars(lam.params.as_slice(), &mut vars)?;
    vars.push(lam.k.0)?;
    name_places(marks, MOST, &vars)?;
    Ok(())
}

/// Marks the variables that terms bind themselves.
fn bind_terms(alloc: Global, marks: &mut Vec<bool>, terms: &[Term]) -> Result<(), Memory>
    ensures { OnOk result (AreNamed (2 ^ 32) (flat_map own_binders terms.now) marks.old.items marks.new.items) }
{
    'terms: for term in terms {
        bind_term(alloc, marks, term)?;
    }
    Ok(())
}

/// Marks the variables that procedures bind.
fn bind_lams(alloc: Global, marks: &mut Vec<bool>, lams: &[Lam]) -> Result<(), Memory>
    ensures { OnOk result (AreNamed (2 ^ 32) (flat_map lam_binders lams.now) marks.old.items marks.new.items) }
{
    'lams: for lam in lams {
        bind_lam(alloc, marks, lam)?;
    }
    Ok(())
}

/// Checks that no variable is bound twice in a program. The only error is the want of memory, which is answered too where one is.
pub(crate) fn check_binders(alloc: Global, cps: &Cps) -> Result<(), Memory>
    ensures { OnOk result ((x : ℕ) → tally (listed_binders cps.now) x ≤ 1) }
{
    let mut marks = Vec::new(alloc);
    bind_terms(alloc, &mut marks, cps.terms.as_slice())?;
    bind_lams(alloc, &mut marks, cps.lams.as_slice())?;
    Ok(())
}
