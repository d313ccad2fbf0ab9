// The places of the parts of a term.
ghost use Rattle.std.specs.Prelude.{◌≡◌, ◌≤◌, ◌++◌, [], ◌∷◌, length, filter, take, OnOk, reverse, Some, None};
ghost use Rattle.cps_ir.specs.Parts.{is_proc, is_procedure, global_lams, first_lams, cont_parts};
ghost use Rattle.cps_ir.specs.Whole.{IsWhole};
ghost use Rattle.cps_walk.specs.Walks.{places_of, own_places, bodies_of, bodies_in, lambda_places, part_places, root_places};

use cps_ir::{Arg, Cont, Cps, Term};
use t_base::{Global1, GlobalKind, Memory, OpInfo};

fn is_proc(kind: GlobalKind) -> bool
    ensures { result ≡ is_proc kind }
{
    matches!(kind, GlobalKind::Proc)
}

fn count_procedures(globals: &[Global1]) -> usize
    ensures { result ≡ length (filter is_procedure globals.now) }
{
    let mut count = 0;
    for global in globals {
        if is_proc(global.kind) {
            count += 1;
        }
    }
    count
}

fn count_defaults(ops: &[OpInfo]) -> usize
    ensures { result ≡ length (filter (λ o. o.default) ops.now) }
{
    let mut count = 0;
    for op in ops {
        if op.default {
            count += 1;
        }
    }
    count
}

/// How many procedures are those of globals.
pub fn global_lams(cps: &Cps) -> usize
    ensures { result ≡ global_lams cps.now }
{
    count_procedures(&cps.shared.globals)
}

/// How many procedures are those of globals and the defaults of operations. These stand first.
pub fn first_lams(cps: &Cps) -> usize
    requires { IsWhole cps.now }
    ensures { result ≡ first_lams cps.now }
{
    global_lams(cps) + count_defaults(&cps.shared.ops)
}

/// Puts the body of the procedure at a place last, where it is a LAMBDA.
fn push_lambda(cps: &Cps, first: usize, l: u32, waiting: &mut Vec<u32>) -> Result<(), Memory>
    requires { first ≡ first_lams cps.now }
    ensures { OnOk result (waiting.new.items ≡ waiting.old.items ++ bodies_of cps.now (l ∷ [])) }
{
    if (l as usize) < first {
        return Ok(());
    }
    if let Some(lam) = cps.lams.get(l as usize) {
        waiting.push(lam.body)?;
    }
    Ok(())
}

fn push_lambdas(cps: &Cps, first: usize, lams: &[u32], waiting: &mut Vec<u32>) -> Result<(), Memory>
    requires { first ≡ first_lams cps.now }
    ensures { OnOk result (waiting.new.items ≡ waiting.old.items ++ bodies_of cps.now lams.now) }
{
    for l in lams {
        push_lambda(cps, first, *l, waiting)?;
    }
    Ok(())
}

fn push_arg(cps: &Cps, first: usize, arg: Arg, waiting: &mut Vec<u32>) -> Result<(), Memory>
    requires { first ≡ first_lams cps.now }
    ensures { OnOk result (waiting.new.items ≡ waiting.old.items ++ bodies_in cps.now (arg ∷ [])) }
{
    if let Arg::Proc(l) = arg {
        push_lambda(cps, first, l, waiting)?;
    }
    Ok(())
}

fn push_args(cps: &Cps, first: usize, args: &[Arg], waiting: &mut Vec<u32>) -> Result<(), Memory>
    requires { first ≡ first_lams cps.now }
    ensures { OnOk result (waiting.new.items ≡ waiting.old.items ++ bodies_in cps.now args.now) }
{
    for arg in args {
        push_arg(cps, first, *arg, waiting)?;
    }
    Ok(())
}

/// Puts the bodies of the LAMBDAs of a term last.
fn push_term_lambdas(
    cps: &Cps,
    first: usize,
    term: &Term,
    waiting: &mut Vec<u32>,
) -> Result<(), Memory>
    requires { first ≡ first_lams cps.now }
    ensures { OnOk result (waiting.new.items ≡ waiting.old.items ++ lambda_places cps.now term.now) }
{
    match term {
        Term::Call { f, args, .. } => {
            push_arg(cps, first, *f, waiting)?;
            push_args(cps, first, args.as_slice(), waiting)
        }
        Term::Prim { args, .. } => push_args(cps, first, args.as_slice(), waiting),
        Term::Labels { lams, .. } => push_lambdas(cps, first, lams.as_slice(), waiting),
        Term::Object { proc, methods, .. } => {
            push_arg(cps, first, *proc, waiting)?;
            push_lambdas(cps, first, methods.as_slice(), waiting)
        }
        Term::If { test, .. } => push_arg(cps, first, *test, waiting),
        Term::Give { value, .. } => push_arg(cps, first, *value, waiting),
        Term::Set { value, .. } => push_arg(cps, first, *value, waiting),
        Term::Cell { value, .. } => push_arg(cps, first, *value, waiting),
        Term::CellSet { value, .. } => push_arg(cps, first, *value, waiting),
        Term::GlobalInit { value, .. } => push_arg(cps, first, *value, waiting),
        Term::GlobalSet { value, .. } => push_arg(cps, first, *value, waiting),
        Term::Uncatch { value, .. } => push_arg(cps, first, *value, waiting),
        Term::Halt { value } => push_arg(cps, first, *value, waiting),
        Term::Join { .. } | Term::CellGet { .. } | Term::GlobalGet { .. } | Term::Catch { .. } =>
            Ok(()),
    }
}

/// Puts the body of a continuation last, where it is written out.
fn push_cont(k: Cont, waiting: &mut Vec<u32>) -> Result<(), Memory>
    ensures { OnOk result (waiting.new.items ≡ waiting.old.items ++ places_of (cont_parts [] (Some k))) }
{
    if let Cont::Lam { body, .. } = k {
        waiting.push(body)?;
    }
    Ok(())
}

/// Puts the terms that a term names last.
fn push_own(term: &Term, waiting: &mut Vec<u32>) -> Result<(), Memory>
    ensures { OnOk result (waiting.new.items ≡ waiting.old.items ++ own_places term.now) }
{
    match term {
        Term::If { yes, no, .. } => {
            waiting.push(*yes)?;
            waiting.push(*no)?;
            Ok(())
        }
        Term::Labels { body, .. } => Ok(waiting.push(*body)?),
        Term::Join { body, rest, .. } => {
            waiting.push(*body)?;
            waiting.push(*rest)?;
            Ok(())
        }
        Term::Cell { rest, .. } => Ok(waiting.push(*rest)?),
        Term::Catch { body, k, .. } => {
            waiting.push(*body)?;
            push_cont(*k, waiting)
        }
        Term::Call { k, .. } => push_cont(*k, waiting),
        Term::Prim { k, .. } => push_cont(*k, waiting),
        Term::Give { k, .. } => push_cont(*k, waiting),
        Term::Set { k, .. } => push_cont(*k, waiting),
        Term::CellGet { k, .. } => push_cont(*k, waiting),
        Term::CellSet { k, .. } => push_cont(*k, waiting),
        Term::GlobalGet { k, .. } => push_cont(*k, waiting),
        Term::GlobalInit { k, .. } => push_cont(*k, waiting),
        Term::GlobalSet { k, .. } => push_cont(*k, waiting),
        Term::Uncatch { k, .. } => push_cont(*k, waiting),
        Term::Object { k, .. } => push_cont(*k, waiting),
        Term::Halt { .. } => Ok(()),
    }
}

/// Puts the places of the parts of a term last: of the bodies of its LAMBDAs, and of the terms that it names. The only error is the want of
/// memory.
pub fn push_parts(cps: &Cps, first: usize, term: &Term, parts: &mut Vec<u32>) -> Result<(), Memory>
    requires { first ≡ first_lams cps.now }
    ensures { OnOk result (parts.new.items ≡ parts.old.items ++ part_places cps.now term.now) }
{
    push_term_lambdas(cps, first, term, parts)?;
    push_own(term, parts)?;
    Ok(())
}

/// Puts the entry and the bodies of the procedures of globals and operations last. The only error is the want of memory.
pub fn push_roots(cps: &Cps, first: usize, parts: &mut Vec<u32>) -> Result<(), Memory>
    requires first { first ≡ first_lams cps.now }
    requires there { first ≤ length cps.now.lams.items }
    ensures { OnOk result (parts.new.items ≡ parts.old.items ++ root_places cps.now) }
{
    parts.push(cps.entry)?;
    for lam in &cps.lams[..first] {
        parts.push(lam.body)?;
    }
    Ok(())
}

/// Moves places to the end of those that wait, so that the first one is the last one there.
pub(crate) fn move_over(parts: &mut Vec<u32>, waiting: &mut Vec<u32>) -> Result<(), Memory>
    ensures waiting { OnOk result (waiting.new.items ≡ waiting.old.items ++ reverse parts.old.items) }
    ensures parts { OnOk result (parts.new.items ≡ []) }
{
    while let Some(place) = parts.pop() {
        waiting.push(place)?;
    }
    Ok(())
}
