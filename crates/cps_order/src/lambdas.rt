// The procedures that terms name.
ghost use Rattle.std.specs.Prelude.{◌≡◌, ◌≤◌, ◌<◌, ℕ, ◌++◌, [], ◌∷◌, nat_lt, not, true, length, OnOk, IfOk};
ghost use Rattle.std.specs.List.{filter_map, flat_map};
ghost use Rattle.cps_ir.specs.Parts.{first_lams, proc_of, lams_of};
ghost use Rattle.cps_walk.specs.Marked.{is_marked};
ghost use Rattle.cps_order.specs.Order.{one, tally, named_lams, AreNamed};

use crate::naming::name_places;
use cps_ir::{Arg, Cps, Term};
use cps_walk::is_marked;
use std::alloc::Global;
use t_base::Memory;

fn push_lams(lams: &[u32], out: &mut Vec<u32>) -> Result<(), Memory>
    ensures { OnOk result (out.new.items ≡ out.old.items ++ lams.now) }
{
    for l in lams {
        out.push(*l)?;
    }
    Ok(())
}

fn push_arg(arg: Arg, out: &mut Vec<u32>) -> Result<(), Memory>
    ensures { OnOk result (out.new.items ≡ out.old.items ++ filter_map proc_of (arg ∷ [])) }
{
    if let Arg::Proc(l) = arg {
        out.push(l)?;
    }
    Ok(())
}

fn push_args(args: &[Arg], out: &mut Vec<u32>) -> Result<(), Memory>
    ensures { OnOk result (out.new.items ≡ out.old.items ++ filter_map proc_of args.now) }
{
    for arg in args {
        push_arg(*arg, out)?;
    }
    Ok(())
}

/// Puts the places of the procedures that a term names last.
fn push_lambdas(term: &Term, out: &mut Vec<u32>) -> Result<(), Memory>
    ensures { OnOk result (out.new.items ≡ out.old.items ++ lams_of term.now) }
{
    match term {
        Term::Call { f, args, .. } => {
            push_arg(*f, out)?;
            push_args(args.as_slice(), out)
        }
        Term::Prim { args, .. } => push_args(args.as_slice(), out),
        Term::Labels { lams, .. } => push_lams(lams.as_slice(), out),
        Term::Object { proc, methods, .. } => {
            push_arg(*proc, out)?;
            push_lams(methods.as_slice(), out)
        }
        Term::If { test, .. } => push_arg(*test, out),
        Term::Give { value, .. } => push_arg(*value, out),
        Term::Set { value, .. } => push_arg(*value, out),
        Term::Cell { value, .. } => push_arg(*value, out),
        Term::CellSet { value, .. } => push_arg(*value, out),
        Term::GlobalInit { value, .. } => push_arg(*value, out),
        Term::GlobalSet { value, .. } => push_arg(*value, out),
        Term::Uncatch { value, .. } => push_arg(*value, out),
        Term::Halt { value } => push_arg(*value, out),
        Term::Join { .. } | Term::CellGet { .. } | Term::GlobalGet { .. } | Term::Catch { .. } =>
            Ok(()),
    }
}

/// Marks the procedures that a term names.
fn name_lambdas(
    alloc: Global,
    marks: &mut Vec<bool>,
    count: usize,
    term: &Term,
) -> Result<(), Memory>
    ensures { OnOk result (AreNamed count (lams_of term.now) marks.old.items marks.new.items) }
{
    let mut lams = Vec::new(alloc);
    push_lambdas(term, &mut lams)?;
    name_places(marks, count, &lams)?;
    Ok(())
}

/// Marks the procedures that terms name.
fn name_all(
    alloc: Global,
    marks: &mut Vec<bool>,
    count: usize,
    terms: &[Term],
) -> Result<(), Memory>
    ensures { OnOk result (AreNamed count (flat_map lams_of terms.now) marks.old.items marks.new.items) }
{
    'terms: for term in terms {
        name_lambdas(alloc, marks, count, term)?;
    }
    Ok(())
}

/// Whether each number below a count is marked.
fn are_marked(marks: &[bool], count: usize) -> bool
    ensures { result ≡ true → (l : ℕ) → l < count → is_marked marks.now l ≡ true }
{
    let mut at = 0;
    'marks: while at < count {
        let Ok(l) = u32::try_from(at) else {
            return false;
        };
        if !is_marked(marks, l) {
            return false;
        }
        at += 1;
    }
    true
}

/// Marks of the numbers below a count.
fn marked_below(alloc: Global, count: usize) -> Result<Vec<bool>, Memory>
    ensures { IfOk result (λ marks. (l : ℕ) → is_marked marks.items l ≡ nat_lt l count) }
{
    let marks = vec![in alloc; true; count]?;
    Ok(marks)
}

/// Checks that each procedure of a program but the first ones is named exactly once, and those by no term. The only error is the want of
/// memory, which is answered too where it is otherwise.
pub(crate) fn check_lambdas(alloc: Global, cps: &Cps, first: usize) -> Result<(), Memory>
    requires { first ≡ first_lams cps.now }
    ensures { OnOk result ((l : ℕ) → l < length cps.now.lams.items → tally (named_lams cps.now) l ≡ one (not (nat_lt l (first_lams cps.now)))) }
{
    let count = cps.lams.len();
    let mut marks = marked_below(alloc, first)?;
    name_all(alloc, &mut marks, count, cps.terms.as_slice())?;
    if !are_marked(&marks, count) {
        return Err(Memory);
    }
    Ok(())
}
