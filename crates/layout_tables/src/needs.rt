// What terms and procedures need of what is bound around them.
//
// First, for each term, the variables that are free in it, each `k` among them, from the parts up; then, from the top down, what is needed
// behind the Join of a `k` in place of the `k`.
use crate::scopes::names;
use cps_ir::{Arg, Cont, Cps, Term};
use std::alloc::Global;
use t_base::{Memory, Var};

/// Variables by the places of terms, or by the numbers of variables.
pub(crate) type Sets = Vec<Vec<Var>>;

fn set_at(sets: &Sets, place: u32) -> &[Var] {
    match sets.get(place as usize) {
        Some(set) => set.as_slice(),
        None => &[],
    }
}

fn put_at(alloc: Global, sets: &mut Sets, place: u32, set: Vec<Var>) -> Result<(), Memory> {
    for step in 0..u32::MAX {
        if sets.len() > place as usize {
            break;
        }
        sets.push(Vec::new(alloc))?;
    }
    if (place as usize) < sets.len() {
        sets[place as usize] = set;
    }
    Ok(())
}

fn add(set: &mut Vec<Var>, var: Var) -> Result<(), Memory> {
    if !names(set, var) {
        set.push(var)?;
    }
    Ok(())
}

/// Adds variables, but for those that are bound.
fn add_all(set: &mut Vec<Var>, vars: &[Var], bound: &[Var]) -> Result<(), Memory> {
    for var in vars {
        if !names(bound, *var) {
            add(set, *var)?;
        }
    }
    Ok(())
}

/// Adds what is free in a procedure.
fn add_lam(set: &mut Vec<Var>, cps: &Cps, free: &Sets, l: u32) -> Result<(), Memory> {
    match cps.lams.get(l as usize) {
        Some(lam) => add_all(set, set_at(free, lam.body), lam.params.as_slice()),
        None => Ok(()),
    }
}

fn add_arg(set: &mut Vec<Var>, cps: &Cps, free: &Sets, arg: Arg) -> Result<(), Memory> {
    match arg {
        Arg::Var(x) => add(set, x),
        Arg::Proc(l) => add_lam(set, cps, free, l),
        Arg::Const(_) | Arg::Global(_) | Arg::Builtin(_) | Arg::Op(_) => Ok(()),
    }
}

fn add_args(set: &mut Vec<Var>, cps: &Cps, free: &Sets, args: &[Arg]) -> Result<(), Memory> {
    for arg in args {
        add_arg(set, cps, free, *arg)?;
    }
    Ok(())
}

fn add_cont(set: &mut Vec<Var>, free: &Sets, k: Cont) -> Result<(), Memory> {
    match k {
        Cont::Var(j) => add(set, j),
        Cont::Lam { param, body } => add_all(set, set_at(free, body), &[param]),
    }
}

fn add_lams(set: &mut Vec<Var>, cps: &Cps, free: &Sets, lams: &[u32]) -> Result<(), Memory> {
    for l in lams {
        add_lam(set, cps, free, *l)?;
    }
    Ok(())
}

/// Adds a value and what is free in a continuation.
fn add_given(
    set: &mut Vec<Var>,
    cps: &Cps,
    free: &Sets,
    value: Arg,
    k: Cont,
) -> Result<(), Memory> {
    add_arg(set, cps, free, value)?;
    add_cont(set, free, k)
}

/// What is free in a Labels: in its procedures and its body, but for its names.
fn add_labels(
    alloc: Global,
    set: &mut Vec<Var>,
    cps: &Cps,
    free: &Sets,
    vars: &[Var],
    lams: &[u32],
    body: u32,
) -> Result<(), Memory> {
    let mut inside = Vec::new(alloc);
    add_lams(&mut inside, cps, free, lams)?;
    add_all(&mut inside, set_at(free, body), &[])?;
    add_all(set, &inside, vars)
}

/// What is free in a term, whose parts are known.
fn free_in(alloc: Global, cps: &Cps, free: &Sets, term: &Term) -> Result<Vec<Var>, Memory> {
    let mut set = Vec::new(alloc);
    match term {
        Term::Call { f, args, k } => {
            add_arg(&mut set, cps, free, *f)?;
            add_args(&mut set, cps, free, args.as_slice())?;
            add_cont(&mut set, free, *k)?;
        }
        Term::Prim { args, k, .. } => {
            add_args(&mut set, cps, free, args.as_slice())?;
            add_cont(&mut set, free, *k)?;
        }
        Term::If { test, yes, no } => {
            add_arg(&mut set, cps, free, *test)?;
            add_all(&mut set, set_at(free, *yes), &[])?;
            add_all(&mut set, set_at(free, *no), &[])?;
        }
        Term::Labels { vars, lams, body } => {
            add_labels(
                alloc,
                &mut set,
                cps,
                free,
                vars.as_slice(),
                lams.as_slice(),
                *body,
            )?;
        }
        Term::Join {
            k,
            param,
            body,
            rest,
        } => {
            add_all(&mut set, set_at(free, *body), &[*param])?;
            add_all(&mut set, set_at(free, *rest), &[*k])?;
        }
        Term::Give { k, value } => add_given(&mut set, cps, free, *value, *k)?,
        Term::Uncatch { k, value } => add_given(&mut set, cps, free, *value, *k)?,
        Term::GlobalInit { value, k, .. } => add_given(&mut set, cps, free, *value, *k)?,
        Term::GlobalSet { value, k, .. } => add_given(&mut set, cps, free, *value, *k)?,
        Term::Set { var, value, k } => {
            add(&mut set, *var)?;
            add_given(&mut set, cps, free, *value, *k)?;
        }
        Term::CellSet { cell, value, k } => {
            add(&mut set, *cell)?;
            add_given(&mut set, cps, free, *value, *k)?;
        }
        Term::Cell { var, value, rest } => {
            add_arg(&mut set, cps, free, *value)?;
            add_all(&mut set, set_at(free, *rest), &[*var])?;
        }
        Term::CellGet { cell, k } => {
            add(&mut set, *cell)?;
            add_cont(&mut set, free, *k)?;
        }
        Term::GlobalGet { k, .. } => add_cont(&mut set, free, *k)?,
        Term::Catch { escape, body, k } => {
            add_all(&mut set, set_at(free, *body), &[*escape])?;
            add_cont(&mut set, free, *k)?;
        }
        Term::Object {
            proc,
            methods,
            k,
            ..
        } => {
            add_lams(&mut set, cps, free, methods.as_slice())?;
            add_given(&mut set, cps, free, *proc, *k)?;
        }
        Term::Halt { value } => add_arg(&mut set, cps, free, *value)?,
    }
    Ok(set)
}

/// What is free in each term that is walked over, a term before its parts.
fn all_free(alloc: Global, cps: &Cps, places: &[u32]) -> Result<Sets, Memory> {
    let mut free = Vec::new(alloc);
    for step in 0..places.len() {
        let place = places[places.len() - 1 - step];
        if let Some(term) = cps.terms.get(place as usize) {
            let set = free_in(alloc, cps, &free, term)?;
            put_at(alloc, &mut free, place, set)?;
        }
    }
    Ok(free)
}

/// What is needed where these are free: in place of a `k`, what is needed behind its Join.
fn needed(
    alloc: Global,
    vars: &[Var],
    bound: &[Var],
    ks: &[bool],
    behind: &Sets,
) -> Result<Vec<Var>, Memory> {
    let mut needs = Vec::new(alloc);
    for var in vars {
        if cps_walk::is_marked(ks, var.0) {
            add_all(&mut needs, set_at(behind, var.0), bound)?;
        } else if !names(bound, *var) {
            add(&mut needs, *var)?;
        }
    }
    Ok(needs)
}

/// What each term that is walked over needs, a term before its parts.
pub(crate) fn all_needs(alloc: Global, cps: &Cps, places: &[u32]) -> Result<Sets, Memory> {
    let free = all_free(alloc, cps, places)?;
    let mut ks = Vec::new(alloc);
    for lam in &cps.lams {
        cps_walk::mark(&mut ks, lam.k.0)?;
    }
    let mut behind = Vec::new(alloc);
    let mut needs = Vec::new(alloc);
    for place in places {
        let set = needed(alloc, set_at(&free, *place), &[], &ks, &behind)?;
        put_at(alloc, &mut needs, *place, set)?;
        if let Some(Term::Join { k, param, body, .. }) = cps.terms.get(*place as usize) {
            let set = needed(alloc, set_at(&free, *body), &[*param], &ks, &behind)?;
            cps_walk::mark(&mut ks, k.0)?;
            put_at(alloc, &mut behind, k.0, set)?;
        }
    }
    Ok(needs)
}

/// What each procedure needs of the scope of its closure.
pub(crate) fn lam_needs(alloc: Global, cps: &Cps, needs: &Sets) -> Result<Sets, Memory> {
    let mut sets = Vec::new(alloc);
    for lam in &cps.lams {
        let mut set = Vec::new(alloc);
        add_all(&mut set, set_at(needs, lam.body), lam.params.as_slice())?;
        sets.push(set)?;
    }
    Ok(sets)
}
