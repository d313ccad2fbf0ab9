// The variables that stand for values and cells, and a count above them all.
ghost use Rattle.std.specs.Prelude.{◌≡◌, ◌<◌, ◌≤◌, All, Some};
ghost use Rattle.cps_ir.specs.Loads.{cont_param};
ghost use Rattle.cps_known.specs.Binders.{value_binders, AreBelow};

use cps_ir::{Cont, Cps, Term};
use t_base::Var;

/// The least count that is no lower, and above a variable.
fn above(count: usize, x: Var) -> usize
    ensures more { count ≤ result }
    ensures above { x.0 < result }
{
    let next = x.0 as usize + 1;
    if count < next { next } else { count }
}

fn above_all(count: usize, vars: &[Var]) -> usize
    ensures more { count ≤ result }
    ensures above { All (λ x. x.0 < result) vars.now }
{
    let mut most = count;
    for x in vars {
        most = above(most, *x);
    }
    most
}

fn above_cont(count: usize, k: Cont) -> usize
    ensures more { count ≤ result }
    ensures above { AreBelow result (cont_param (Some k)) }
{
    match k {
        Cont::Var(_) => count,
        Cont::Lam { param, .. } => above(count, param),
    }
}

/// A count above the variables that a term binds, but for its LAMBDAs and each `k`.
fn above_term(count: usize, term: &Term) -> usize
    ensures more { count ≤ result }
    ensures above { AreBelow result (value_binders term.now) }
{
    match term {
        Term::Labels { vars, .. } => above_all(count, vars.as_slice()),
        Term::Join { param, .. } => above(count, *param),
        Term::Cell { var, .. } => above(count, *var),
        Term::Catch { escape, k, .. } => {
            let with_escape = above(count, *escape);
            above_cont(with_escape, *k)
        }
        Term::Call { k, .. } => above_cont(count, *k),
        Term::Prim { k, .. } => above_cont(count, *k),
        Term::Give { k, .. } => above_cont(count, *k),
        Term::Set { k, .. } => above_cont(count, *k),
        Term::CellGet { k, .. } => above_cont(count, *k),
        Term::CellSet { k, .. } => above_cont(count, *k),
        Term::GlobalGet { k, .. } => above_cont(count, *k),
        Term::GlobalInit { k, .. } => above_cont(count, *k),
        Term::GlobalSet { k, .. } => above_cont(count, *k),
        Term::Uncatch { k, .. } => above_cont(count, *k),
        Term::Object { k, .. } => above_cont(count, *k),
        Term::If { .. } | Term::Halt { .. } => count,
    }
}

fn above_terms(count: usize, terms: &[Term]) -> usize
    ensures more { count ≤ result }
    ensures above { All (λ t. AreBelow result (value_binders t)) terms.now }
{
    let mut most = count;
    for term in terms {
        most = above_term(most, term);
    }
    most
}

/// A count above the variables that stand for values and cells.
pub(crate) fn variable_count(cps: &Cps) -> usize
    ensures terms { All (λ t. AreBelow result (value_binders t)) cps.now.terms.items }
    ensures lams { All (λ lam. All (λ x. x.0 < result) lam.params) cps.now.lams.items }
{
    let mut most = above_terms(0, &cps.terms);
    for lam in &cps.lams {
        most = above_all(most, lam.params.as_slice());
    }
    most
}
