// The variables that are free in each term.
ghost use Rattle.std.specs.Prelude.{◌≡◌, [], replicate, IfOk};
ghost use Rattle.cps_ir.specs.Parts.{walked};
ghost use Rattle.cps_ir.specs.Whole.{IsWhole};
ghost use Rattle.cps_known.specs.LiveVariables.{IsLive};
ghost use Rattle.cps_live.specs.FreeVariables.{AreLists, IsFree};

use crate::continuations::continuations;
use crate::gathering::{Hidden, gather};
use crate::number_set::NumberSet;
use cps_ir::Cps;
use cps_known::Live;
use cps_walk::{first_lams, walk};
use std::alloc::Global;
use t_base::{Memory, Vars};

/// So many empty lists.
pub(crate) fn no_lists(alloc: Global, count: usize) -> Result<Vec<Vars>, Memory>
    ensures { IfOk result (λ lists. lists.items ≡ replicate count []) }
{
    let mut lists = Vec::new(alloc);
    for _place in 0..count {
        lists.push(Vars::from_vec(Vec::new(alloc)))?;
    }
    Ok(lists)
}

/// The variables that are free in the term at each place but for some, each once. Terms are gone through backwards, so that the parts of a
/// term come before it, and what a term uses and its parts' lists are gone through once.
fn lists_but(
    alloc: Global,
    cps: &Cps,
    places: Vec<u32>,
    but: &NumberSet,
) -> Result<Vec<Vars>, Memory>
    requires whole { IsWhole cps.now }
    requires walked { places.items ≡ walked cps.now }
    ensures { IfOk result (λ lists. AreLists cps.now but.now lists.items) }
{
    let first = first_lams(cps);
    let mut waiting = places;
    let mut hidden = Hidden::new(alloc);
    let mut found = NumberSet::new(alloc);
    let mut at = no_lists(alloc, cps.terms.len())?;
    while let Some(place) = waiting.pop() {
        let term = &cps.terms[place as usize];
        let vars = gather(alloc, cps, first, &at, term, but, &mut hidden, &mut found)?;
        at[place as usize] = vars;
    }
    Ok(at)
}

/// The variables that are free in the term at each place, each once; the `k` of a Join or of a procedure is none of them. It is linear in
/// the sum of the lengths of the lists, and in terms, arguments, parameters and the greatest variable. The only error is the want of memory.
pub fn live(alloc: Global, cps: &Cps) -> Result<Live, Memory>
    requires { IsWhole cps.now }
    ensures { IfOk result (IsLive cps.now) }
{
    let places = walk(alloc, cps)?;
    let ks = NumberSet::of(alloc, &continuations(alloc, cps, first_lams(cps), &places)?)?;
    let at = lists_but(alloc, cps, places, &ks)?;
    Ok(Live { at })
}

/// The variables that are free in the term at each place, each once, and each `k` that is free there among them. Where a term isn't reached
/// there are none.
#[derive(Drop)]
pub struct Free {
    pub at: Vec<Vars>,
}

/// The variables that are free in the term at each place, each once: what is live there, and each `k` of a Join or a procedure. It is linear
/// in the sum of the lengths of the lists, and in terms, arguments, parameters and the greatest variable. The only error is the want of memory.
pub fn free_variables(alloc: Global, cps: &Cps) -> Result<Free, Memory>
    requires { IsWhole cps.now }
    ensures { IfOk result (IsFree cps.now) }
{
    let places = walk(alloc, cps)?;
    let at = lists_but(alloc, cps, places, &NumberSet::new(alloc))?;
    Ok(Free { at })
}
