// The variables that are free in a term, by those of its parts.
ghost use Rattle.std.specs.Prelude.{◌≡◌, ℕ, ◌++◌, ◌||◌, ◌&&◌, not, [], ◌∷◌, map, ◌==◌, OnOk, IfOk, Some};
ghost use Rattle.std.specs.List.{flat_map};
ghost use Rattle.cps_ir.specs.Parts.{first_lams, variable_of, lam_binders, cont_parts, own_parts, parts_of, around};
ghost use Rattle.cps_ir.specs.Reaches.{is_in, without};
ghost use Rattle.cps_live.specs.Gathered.{numbers, list_at, seen_in, seen_in_lambdas, wanted_by, AreGathered};

use crate::number_set::NumberSet;
use crate::operands::{named_lams, push_used};
use cps_ir::{Cont, Cps, Lam, Term};
use std::alloc::Global;
use t_base::{Memory, Var, Vars};

/// The names that a term binds around a part of it: those of this part alone, and those around all of its LAMBDAs.
#[derive(Drop)]
pub(crate) struct Hidden {
    inner: NumberSet,
    outer: NumberSet,
}

impl Hidden {
    /// No names. It takes no memory.
    pub(crate) fn new(alloc: Global) -> Hidden
        ensures inner { result.inner ≡ [] }
        ensures outer { result.outer ≡ [] }
    {
        Hidden {
            inner: NumberSet::new(alloc),
            outer: NumberSet::new(alloc),
        }
    }

    fn hides(&self, n: u32) -> bool
        ensures { result ≡ is_in (self.now.inner ++ self.now.outer) n }
    {
        self.inner.contains(n) || self.outer.contains(n)
    }
}

// ---- what is seen of a part

fn push_unhidden(x: Var, hidden: &Hidden, wanted: &mut Vec<u32>) -> Result<(), Memory>
    ensures { OnOk result (wanted.new.items ≡ wanted.old.items ++ without (hidden.now.inner ++ hidden.now.outer) (x.0 ∷ [])) }
{
    if !hidden.hides(x.0) {
        wanted.push(x.0)?;
    }
    Ok(())
}

fn push_all_unhidden(vars: &[Var], hidden: &Hidden, wanted: &mut Vec<u32>) -> Result<(), Memory>
    ensures { OnOk result (wanted.new.items ≡ wanted.old.items ++ without (hidden.now.inner ++ hidden.now.outer) (numbers vars.now)) }
{
    for x in vars {
        push_unhidden(*x, hidden, wanted)?;
    }
    Ok(())
}

/// Puts the variables in the list at a place last, but for what is hidden.
fn push_seen(lists: &[Vars], at: u32, hidden: &Hidden, wanted: &mut Vec<u32>) -> Result<(), Memory>
    ensures { OnOk result (wanted.new.items ≡ wanted.old.items ++ without (hidden.now.inner ++ hidden.now.outer) (list_at lists.now at)) }
{
    if let Some(vars) = lists.get(at as usize) {
        push_all_unhidden(vars.as_slice(), hidden, wanted)?;
    }
    Ok(())
}

/// Puts the variables in the list at a place last, but for these.
fn push_behind(
    lists: &[Vars],
    at: u32,
    vars: &[Var],
    hidden: &mut Hidden,
    wanted: &mut Vec<u32>,
) -> Result<(), Memory>
    requires inner { hidden.old.inner ≡ [] }
    requires outer { hidden.old.outer ≡ [] }
    ensures wanted { OnOk result (wanted.new.items ≡ wanted.old.items ++ without (numbers vars.now) (list_at lists.now at)) }
    ensures inner { OnOk result (hidden.new.inner ≡ []) }
    ensures outer { OnOk result (hidden.new.outer ≡ []) }
{
    hidden.inner.insert_all(vars)?;
    push_seen(lists, at, hidden, wanted)?;
    hidden.inner.clear();
    Ok(())
}

fn push_cont(
    lists: &[Vars],
    k: Cont,
    hidden: &mut Hidden,
    wanted: &mut Vec<u32>,
) -> Result<(), Memory>
    requires inner { hidden.old.inner ≡ [] }
    requires outer { hidden.old.outer ≡ [] }
    ensures wanted { OnOk result (wanted.new.items ≡ wanted.old.items ++ flat_map (seen_in lists.now) (cont_parts [] (Some k))) }
    ensures inner { OnOk result (hidden.new.inner ≡ []) }
    ensures outer { OnOk result (hidden.new.outer ≡ []) }
{
    if let Cont::Lam { param, body } = k {
        push_behind(lists, body, &[param], hidden, wanted)?;
    }
    Ok(())
}

/// Puts what is seen of the terms that a term names last.
fn push_own(
    lists: &[Vars],
    term: &Term,
    hidden: &mut Hidden,
    wanted: &mut Vec<u32>,
) -> Result<(), Memory>
    requires inner { hidden.old.inner ≡ [] }
    requires outer { hidden.old.outer ≡ [] }
    ensures wanted { OnOk result (wanted.new.items ≡ wanted.old.items ++ flat_map (seen_in lists.now) (own_parts [] term.now)) }
    ensures inner { OnOk result (hidden.new.inner ≡ []) }
    ensures outer { OnOk result (hidden.new.outer ≡ []) }
{
    match term {
        Term::If { yes, no, .. } => {
            push_behind(lists, *yes, &[], hidden, wanted)?;
            push_behind(lists, *no, &[], hidden, wanted)
        }
        Term::Labels { vars, body, .. } => {
            push_behind(lists, *body, vars.as_slice(), hidden, wanted)?;
            Ok(())
        }
        Term::Join {
            k,
            param,
            body,
            rest,
        } => {
            push_behind(lists, *body, &[*param], hidden, wanted)?;
            push_behind(lists, *rest, &[*k], hidden, wanted)
        }
        Term::Cell { var, rest, .. } => push_behind(lists, *rest, &[*var], hidden, wanted),
        Term::Catch { escape, body, k } => {
            push_behind(lists, *body, &[*escape], hidden, wanted)?;
            push_cont(lists, *k, hidden, wanted)
        }
        Term::Call { k, .. } => push_cont(lists, *k, hidden, wanted),
        Term::Prim { k, .. } => push_cont(lists, *k, hidden, wanted),
        Term::Give { k, .. } => push_cont(lists, *k, hidden, wanted),
        Term::Set { k, .. } => push_cont(lists, *k, hidden, wanted),
        Term::CellGet { k, .. } => push_cont(lists, *k, hidden, wanted),
        Term::CellSet { k, .. } => push_cont(lists, *k, hidden, wanted),
        Term::GlobalGet { k, .. } => push_cont(lists, *k, hidden, wanted),
        Term::GlobalInit { k, .. } => push_cont(lists, *k, hidden, wanted),
        Term::GlobalSet { k, .. } => push_cont(lists, *k, hidden, wanted),
        Term::Uncatch { k, .. } => push_cont(lists, *k, hidden, wanted),
        Term::Object { k, .. } => push_cont(lists, *k, hidden, wanted),
        Term::Halt { .. } => Ok(()),
    }
}

// ---- LAMBDAs

/// Puts what is seen of the body of a procedure last.
fn push_body(
    lists: &[Vars],
    lam: &Lam,
    hidden: &mut Hidden,
    wanted: &mut Vec<u32>,
) -> Result<(), Memory>
    requires { hidden.old.inner ≡ [] }
    ensures wanted { OnOk result (wanted.new.items ≡ wanted.old.items ++ without (lam_binders lam.now ++ hidden.old.outer) (list_at lists.now lam.now.body)) }
    ensures inner { OnOk result (hidden.new.inner ≡ []) }
    ensures outer { OnOk result (hidden.new.outer ≡ hidden.old.outer) }
{
    hidden.inner.insert_all(lam.params.as_slice())?;
    hidden.inner.insert(lam.k.0)?;
    push_seen(lists, lam.body, hidden, wanted)?;
    hidden.inner.clear();
    Ok(())
}

/// Puts what is seen of the body of the procedure at a place last, where it is a LAMBDA.
fn push_lambda(
    cps: &Cps,
    first: usize,
    lists: &[Vars],
    l: u32,
    hidden: &mut Hidden,
    wanted: &mut Vec<u32>,
) -> Result<(), Memory>
    requires first { first ≡ first_lams cps.now }
    requires inner { hidden.old.inner ≡ [] }
    ensures wanted { OnOk result (wanted.new.items ≡ wanted.old.items ++ seen_in_lambdas cps.now lists.now hidden.old.outer (l ∷ [])) }
    ensures inner { OnOk result (hidden.new.inner ≡ []) }
    ensures outer { OnOk result (hidden.new.outer ≡ hidden.old.outer) }
{
    if (l as usize) < first {
        return Ok(());
    }
    if let Some(lam) = cps.lams.get(l as usize) {
        push_body(lists, lam, hidden, wanted)?;
    }
    Ok(())
}

fn push_lambdas(
    cps: &Cps,
    first: usize,
    lists: &[Vars],
    lams: &[u32],
    hidden: &mut Hidden,
    wanted: &mut Vec<u32>,
) -> Result<(), Memory>
    requires first { first ≡ first_lams cps.now }
    requires inner { hidden.old.inner ≡ [] }
    ensures wanted { OnOk result (wanted.new.items ≡ wanted.old.items ++ seen_in_lambdas cps.now lists.now hidden.old.outer lams.now) }
    ensures inner { OnOk result (hidden.new.inner ≡ []) }
    ensures outer { OnOk result (hidden.new.outer ≡ hidden.old.outer) }
{
    for l in lams {
        push_lambda(cps, first, lists, *l, hidden, wanted)?;
    }
    Ok(())
}

/// Hides the names of a Labels.
fn hide_labels(term: &Term, outer: &mut NumberSet) -> Result<(), Memory>
    requires { outer.old ≡ [] }
    ensures { OnOk result ((m : ℕ) → is_in outer.new m ≡ is_in (map variable_of (around term.now)) m) }
{
    if let Term::Labels { vars, .. } = term {
        outer.insert_all(vars.as_slice())?;
    }
    Ok(())
}

// ---- a term

/// Puts what is seen of the parts of a term last.
fn push_parts(
    alloc: Global,
    cps: &Cps,
    first: usize,
    lists: &[Vars],
    term: &Term,
    hidden: &mut Hidden,
    wanted: &mut Vec<u32>,
) -> Result<(), Memory>
    requires first { first ≡ first_lams cps.now }
    requires inner { hidden.old.inner ≡ [] }
    requires outer { hidden.old.outer ≡ [] }
    ensures wanted { OnOk result (wanted.new.items ≡ wanted.old.items ++ flat_map (seen_in lists.now) (parts_of cps.now [] term.now)) }
    ensures inner { OnOk result (hidden.new.inner ≡ []) }
    ensures outer { OnOk result (hidden.new.outer ≡ []) }
{
    let lams = named_lams(alloc, term)?;
    hide_labels(term, &mut hidden.outer)?;
    push_lambdas(cps, first, lists, &lams, hidden, wanted)?;
    hidden.outer.clear();
    push_own(lists, term, hidden, wanted)?;
    Ok(())
}

/// Adds a number, where it isn't among these.
fn keep(n: u32, ks: &NumberSet, found: &mut NumberSet) -> Result<(), Memory>
    ensures { OnOk result ((m : ℕ) → is_in found.new m ≡ (is_in found.old m || (n == m && not (is_in ks.now m)))) }
{
    if !ks.contains(n) {
        found.insert(n)?;
    }
    Ok(())
}

fn keep_all(wanted: &[u32], ks: &NumberSet, found: &mut NumberSet) -> Result<(), Memory>
    ensures { OnOk result ((m : ℕ) → is_in found.new m ≡ (is_in found.old m || (is_in wanted.now m && not (is_in ks.now m)))) }
{
    for n in wanted {
        keep(*n, ks, found)?;
    }
    Ok(())
}

/// The variables that are free in a term but for these, each once, by the lists of its parts.
pub(crate) fn gather(
    alloc: Global,
    cps: &Cps,
    first: usize,
    lists: &[Vars],
    term: &Term,
    ks: &NumberSet,
    hidden: &mut Hidden,
    found: &mut NumberSet,
) -> Result<Vars, Memory>
    requires first { first ≡ first_lams cps.now }
    requires inner { hidden.old.inner ≡ [] }
    requires outer { hidden.old.outer ≡ [] }
    requires found { found.old ≡ [] }
    ensures gathered { IfOk result (AreGathered cps.now ks.now lists.now term.now) }
    ensures inner { OnOk result (hidden.new.inner ≡ []) }
    ensures outer { OnOk result (hidden.new.outer ≡ []) }
    ensures found { OnOk result (found.new ≡ []) }
{
    let mut wanted = Vec::new(alloc);
    push_used(alloc, term, &mut wanted)?;
    push_parts(alloc, cps, first, lists, term, hidden, &mut wanted)?;
    keep_all(&wanted, ks, found)?;
    let vars = found.to_vars(alloc)?;
    found.clear();
    Ok(vars)
}
