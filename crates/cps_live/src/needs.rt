// What each term needs.
ghost use Rattle.std.specs.Prelude.{◌≡◌, ◌≢◌, ℕ, ◌<◌, ◌==◌, ◌||◌, ◌&&◌, not, true, false, [], length, All, replicate, AllPairs, OnOk, IfOk};
ghost use Rattle.std.specs.List.{flat_map};
ghost use Rattle.cps_ir.specs.Parts.{walked, reached_terms};
ghost use Rattle.cps_ir.specs.Reaches.{is_in};
ghost use Rattle.cps_ir.specs.Whole.{IsWhole};
ghost use Rattle.cps_known.specs.LiveVariables.{join_k, continuations};
ghost use Rattle.cps_live.specs.FreeVariables.{IsFree};
ghost use Rattle.cps_live.specs.Gathered.{numbers, list_at};
ghost use Rattle.cps_live.specs.Needs.{expansion, Meets, MeetsJoin, HasNeeds};

use crate::continuations::{continuations, join_ks};
use crate::lives::{free_variables, no_lists};
use crate::number_set::NumberSet;
use cps_ir::{Cps, Term};
use cps_walk::{first_lams, walk};
use std::alloc::Global;
use t_base::{Memory, Var, Vars};

/// The variables that the term at each place needs, each once: what is live there, and, where the `k` of a Join is free there, what the
/// Join's body needs but for its parameter. Where a term isn't reached there are none.
#[derive(Drop)]
pub struct Needs {
    pub at: Vec<Vars>,
}

/// The `k` of each Join, each continuation, and for the Joins that were met what their bodies need but for the parameter, by the `k`.
#[derive(Drop)]
struct Joins {
    joins: NumberSet,
    ks: NumberSet,
    met: NumberSet,
    lists: Vec<Vars>,
}

/// Adds the numbers of the list at a place.
fn insert_list(lists: &[Vars], at: u32, found: &mut NumberSet) -> Result<(), Memory>
    ensures { OnOk result ((m : ℕ) → is_in found.new m ≡ (is_in found.old m || is_in (list_at lists.now at) m)) }
{
    if let Some(vars) = lists.get(at as usize) {
        found.insert_all(vars.as_slice())?;
    }
    Ok(())
}

/// Adds what a free variable stands for.
fn expand_one(joins: &Joins, x: u32, found: &mut NumberSet) -> Result<(), Memory>
    ensures { OnOk result ((m : ℕ) → is_in found.new m ≡ (is_in found.old m || is_in (expansion joins.now.joins joins.now.ks joins.now.lists.items x) m)) }
{
    if joins.joins.contains(x) {
        insert_list(&joins.lists, x, found)?;
        return Ok(());
    }
    if !joins.ks.contains(x) {
        found.insert(x)?;
    }
    Ok(())
}

fn expand_all(joins: &Joins, free: &[Var], found: &mut NumberSet) -> Result<(), Memory>
    ensures { OnOk result ((m : ℕ) → is_in found.new m ≡ (is_in found.old m || is_in (flat_map (expansion joins.now.joins joins.now.ks joins.now.lists.items) (numbers free.now)) m)) }
{
    for x in free {
        expand_one(joins, x.0, found)?;
    }
    Ok(())
}

/// Adds what the variables in the list at a place stand for.
fn expand(joins: &Joins, free: &[Vars], at: u32, found: &mut NumberSet) -> Result<(), Memory>
    ensures { OnOk result ((m : ℕ) → is_in found.new m ≡ (is_in found.old m || is_in (flat_map (expansion joins.now.joins joins.now.ks joins.now.lists.items) (list_at free.now at)) m)) }
{
    if let Some(vars) = free.get(at as usize) {
        expand_all(joins, vars.as_slice(), found)?;
    }
    Ok(())
}

/// What the variables in the list at a place stand for, each once.
fn expanded(
    alloc: Global,
    joins: &Joins,
    free: &[Vars],
    at: u32,
    found: &mut NumberSet,
) -> Result<Vars, Memory>
    requires { found.old ≡ [] }
    ensures vars { IfOk result (λ xs. (m : ℕ) → is_in (numbers xs) m ≡ is_in (flat_map (expansion joins.now.joins joins.now.ks joins.now.lists.items) (list_at free.now at)) m) }
    ensures once { IfOk result (λ xs. AllPairs (λ x y. x ≢ y) (numbers xs)) }
    ensures found { OnOk result (found.new ≡ []) }
{
    expand(joins, free, at, found)?;
    let vars = found.to_vars(alloc)?;
    found.clear();
    Ok(vars)
}

// ---- Joins

fn push_other(x: Var, but: Var, vars: &mut Vec<Var>) -> Result<(), Memory>
    ensures { OnOk result ((m : ℕ) → is_in (numbers vars.new.items) m ≡ (is_in (numbers vars.old.items) m || (x.0 == m && not (but.0 == m)))) }
{
    if x.0 != but.0 {
        vars.push(x)?;
    }
    Ok(())
}

/// These variables without one of them.
fn others(alloc: Global, from: &[Var], but: Var) -> Result<Vars, Memory>
    ensures { IfOk result (λ xs. (m : ℕ) → is_in (numbers xs) m ≡ (is_in (numbers from.now) m && not (but.0 == m))) }
{
    let mut vars = Vec::new(alloc);
    for x in from {
        push_other(*x, but, &mut vars)?;
    }
    Ok(Vars::from_vec(vars))
}

/// Adds empty lists until there is one at a place.
fn make_room(alloc: Global, lists: &mut Vec<Vars>, at: u32) -> Result<(), Memory>
    ensures kept { OnOk result ((m : ℕ) → list_at lists.new.items m ≡ list_at lists.old.items m) }
    ensures room { OnOk result (at < length lists.new.items) }
{
    'room: while lists.len() <= at as usize {
        lists.push(Vars::from_vec(Vec::new(alloc)))?;
    }
    Ok(())
}

/// Puts a list at a place.
fn put(alloc: Global, lists: &mut Vec<Vars>, at: u32, vars: Vars) -> Result<(), Memory>
    ensures here { OnOk result (list_at lists.new.items at ≡ numbers vars) }
    ensures others { OnOk result ((m : ℕ) → (at == m) ≡ false → list_at lists.new.items m ≡ list_at lists.old.items m) }
{
    make_room(alloc, lists, at)?;
    lists[at as usize] = vars;
    Ok(())
}

/// Puts what the body of a Join needs but for the parameter under its `k`.
fn meet_join(
    alloc: Global,
    joins: &mut Joins,
    free: &[Vars],
    k: Var,
    param: Var,
    body: u32,
    found: &mut NumberSet,
) -> Result<(), Memory>
    requires { found.old ≡ [] }
    ensures meets { OnOk result (MeetsJoin joins.old.joins joins.old.ks joins.old.met joins.new.met joins.old.lists.items joins.new.lists.items free.now k.0 param.0 body) }
    ensures joins { OnOk result (joins.new.joins ≡ joins.old.joins) }
    ensures ks { OnOk result (joins.new.ks ≡ joins.old.ks) }
    ensures found { OnOk result (found.new ≡ []) }
{
    let vars = expanded(alloc, joins, free, body, found)?;
    let behind = others(alloc, vars.as_slice(), param)?;
    put(alloc, &mut joins.lists, k.0, behind)?;
    joins.met.insert(k.0)?;
    Ok(())
}

fn meet(
    alloc: Global,
    joins: &mut Joins,
    free: &[Vars],
    term: &Term,
    found: &mut NumberSet,
) -> Result<(), Memory>
    requires { found.old ≡ [] }
    ensures meets { OnOk result (Meets joins.old.joins joins.old.ks joins.old.met joins.new.met joins.old.lists.items joins.new.lists.items free.now term.now) }
    ensures joins { OnOk result (joins.new.joins ≡ joins.old.joins) }
    ensures ks { OnOk result (joins.new.ks ≡ joins.old.ks) }
    ensures found { OnOk result (found.new ≡ []) }
{
    if let Term::Join { k, param, body, .. } = term {
        meet_join(alloc, joins, free, *k, *param, *body, found)?;
    }
    Ok(())
}

// ---- all terms

/// What is known before a Join was met.
fn none_met(alloc: Global, cps: &Cps, places: &[u32]) -> Result<Joins, Memory>
    requires whole { IsWhole cps.now }
    requires walked { places.now ≡ walked cps.now }
    requires there { All (λ t. t < length cps.now.terms.items) places.now }
    ensures joins { IfOk result (λ joins. (m : ℕ) → is_in joins.joins m ≡ is_in (flat_map join_k (reached_terms cps.now)) m) }
    ensures ks { IfOk result (λ joins. (m : ℕ) → is_in joins.ks m ≡ is_in (continuations cps.now) m) }
    ensures met { IfOk result (λ joins. joins.met ≡ []) }
{
    let joins = NumberSet::of(alloc, &join_ks(alloc, cps, places)?)?;
    let ks = NumberSet::of(alloc, &continuations(alloc, cps, first_lams(cps), places)?)?;
    Ok(Joins {
        joins,
        ks,
        met: NumberSet::new(alloc),
        lists: Vec::new(alloc),
    })
}

/// The variables that the term at each place needs, each once: what is live there, and with the `k` of a Join that is free there what the
/// Join's body needs but for its parameter. So a frame keeps, and a jump passes, what the term behind needs. Terms are gone through in the
/// order of the walk, in which a Join stands before the terms that give to its `k`. It is linear in the sum of the lists that are put
/// together. The only error is the want of memory.
pub fn needed_variables(alloc: Global, cps: &Cps) -> Result<Needs, Memory>
    requires { IsWhole cps.now }
    ensures { IfOk result (HasNeeds cps.now) }
{
    let places = walk(alloc, cps)?;
    let free = free_variables(alloc, cps)?;
    let mut joins = none_met(alloc, cps, &places)?;
    let mut found = NumberSet::new(alloc);
    let mut at = no_lists(alloc, cps.terms.len())?;
    for place in &places {
        let vars = expanded(alloc, &joins, &free.at, *place, &mut found)?;
        at[*place as usize] = vars;
        meet(
            alloc,
            &mut joins,
            &free.at,
            &cps.terms[*place as usize],
            &mut found,
        )?;
    }
    Ok(Needs { at })
}
