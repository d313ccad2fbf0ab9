// What is known of terms, procedures and variables before anything is laid out.
ghost use Rattle.std.specs.Prelude.{◌≡◌, ℕ, ◌&&◌, ◌==◌, not, [], length, IfOk, IsTrue};
ghost use Rattle.cps_ir.specs.Reaches.{is_in};
ghost use Rattle.layout_relation.specs.Laid.{numbers};
ghost use Rattle.layout_tables.specs.Sketches.{term_needs, lam_needs, needs_behind, rank_of, is_celled, KnowsFirst, NeedsAreSmall};
ghost use Rattle.cps_ir.specs.Whole.{IsWhole};

use crate::needs::{Sets, all_needs, lam_needs as all_lam_needs};
use crate::scopes::names;
use cps_ir::{Cps, Term};
use cps_walk::{first_lams, is_marked, mark, walk};
use std::alloc::Global;
use t_base::{Memory, Var, Vars};

/// How many procedures stand first; the variables that the term at each place needs, those that the procedure at each place needs of the
/// scope of its closure, each once; which variables are cells; and a number for each term that is less than those of the terms around it.
#[derive(Drop)]
pub struct Tables {
    pub first: usize,
    pub needs: Vec<Vars>,
    pub lams: Vec<Vars>,
    pub cells: Vec<bool>,
    pub ranks: Vec<u32>,
}

/// What the term at a place needs.
pub fn term_needs(tables: &Tables, term: u32) -> &[Var]
    ensures { numbers result.now ≡ term_needs tables.now term }
{
    match tables.needs.get(term as usize) {
        Some(vars) => vars.as_slice(),
        None => &[],
    }
}

/// What the procedure at a place needs.
pub fn lam_needs(tables: &Tables, l: u32) -> &[Var]
    ensures { numbers result.now ≡ lam_needs tables.now l }
{
    match tables.lams.get(l as usize) {
        Some(vars) => vars.as_slice(),
        None => &[],
    }
}

/// What is needed behind a continuation with this parameter and body.
pub fn needs_behind(
    alloc: Global,
    tables: &Tables,
    param: Var,
    body: u32,
) -> Result<Vec<Var>, Memory>
    ensures { IfOk result (λ vars. numbers vars.items ≡ needs_behind tables.now param body) }
{
    let mut behind = Vec::new(alloc);
    for var in term_needs(tables, body) {
        if var.0 != param.0 {
            behind.push(*var)?;
        }
    }
    Ok(behind)
}

/// Whether a variable is needed behind a continuation with this parameter and body.
pub(crate) fn is_needed_behind(tables: &Tables, param: Var, body: u32, var: Var) -> bool
    ensures { result ≡ is_in (needs_behind tables.now param body) var.0 }
{
    var.0 != param.0 && names(term_needs(tables, body), var)
}

/// Whether a variable is a cell.
pub fn is_celled(tables: &Tables, var: Var) -> bool
    ensures { result ≡ is_celled tables.now var.0 }
{
    is_marked(&tables.cells, var.0)
}

/// The number of a term.
pub fn rank_of(tables: &Tables, term: u32) -> u32
    ensures { result ≡ rank_of tables.now term }
{
    match tables.ranks.get(term as usize) {
        Some(rank) => *rank,
        None => 0,
    }
}

fn shut(alloc: Global, sets: Sets) -> Result<Vec<Vars>, Memory> {
    let mut lists = Vec::new(alloc);
    for set in sets {
        lists.push(Vars::from_vec(set))?;
    }
    Ok(lists)
}

/// Marks each variable that a term makes a cell.
fn all_cells(alloc: Global, cps: &Cps, places: &[u32]) -> Result<Vec<bool>, Memory> {
    let mut cells = Vec::new(alloc);
    for place in places {
        if let Some(Term::Cell { var, .. }) = cps.terms.get(*place as usize) {
            mark(&mut cells, var.0)?;
        }
    }
    Ok(cells)
}

/// Numbers for terms, in the order of the walk from the last one on.
fn all_ranks(alloc: Global, cps: &Cps, places: &[u32]) -> Result<Vec<u32>, Memory> {
    let mut ranks = vec![in alloc; 0; cps.terms.len()]?;
    let mut rank = u32::MAX;
    for place in places {
        if (*place as usize) < ranks.len() {
            ranks[*place as usize] = rank;
        }
        rank = rank.saturating_sub(1);
    }
    Ok(ranks)
}

/// The tables of a program.
pub fn tables_of(alloc: Global, cps: &Cps) -> Result<Tables, Memory>
    requires { IsWhole cps.now }
    ensures { IfOk result (KnowsFirst cps.now) }
{
    let first = first_lams(cps);
    let places = walk(alloc, cps)?;
    let needs = all_needs(alloc, cps, &places)?;
    let lams = all_lam_needs(alloc, cps, &needs)?;
    let cells = all_cells(alloc, cps, &places)?;
    let ranks = all_ranks(alloc, cps, &places)?;
    Ok(Tables {
        first,
        needs: shut(alloc, needs)?,
        lams: shut(alloc, lams)?,
        cells,
        ranks,
    })
}

/// Whether no procedure needs more than the nodes of the unit's largest form.
pub fn are_small(cps: &Cps, tables: &Tables) -> bool
    ensures { IsTrue result → NeedsAreSmall cps.now tables.now }
{
    for vars in &tables.lams {
        if vars.as_slice().len() > cps.shared.size as usize {
            return false;
        }
    }
    true
}
