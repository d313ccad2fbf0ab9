// The walk over what is reached.
ghost use Rattle.std.specs.Prelude.{◌≡◌, ◌<◌, ◌++◌, [], length, reverse, All, IfOk, OnOk};
ghost use Rattle.cps_ir.specs.Parts.{first_lams, walked};
ghost use Rattle.cps_ir.specs.Whole.{IsWhole};
ghost use Rattle.cps_walk.specs.Walks.{places_under};

use crate::parts::{first_lams, move_over, push_parts, push_roots};
use cps_ir::Cps;
use std::alloc::Global;
use t_base::Memory;

/// Puts the parts of the term at a place to the end of those that wait, the first one last.
fn visit(
    cps: &Cps,
    first: usize,
    place: u32,
    parts: &mut Vec<u32>,
    waiting: &mut Vec<u32>,
) -> Result<(), Memory>
    requires first { first ≡ first_lams cps.now }
    requires there { place < length cps.now.terms.items }
    requires parts { parts.old.items ≡ [] }
    ensures waiting { OnOk result (waiting.new.items ≡ waiting.old.items ++ reverse (places_under cps.now place)) }
    ensures parts { OnOk result (parts.new.items ≡ []) }
{
    push_parts(cps, first, &cps.terms[place as usize], parts)?;
    move_over(parts, waiting)?;
    Ok(())
}

/// The places of the terms that are reached from the entry and from the procedures of globals and operations: each once, a term before its
/// parts, its LAMBDAs before the terms that it names. It is linear in the terms and their arguments. The only error is the want of memory.
pub fn walk(alloc: Global, cps: &Cps) -> Result<Vec<u32>, Memory>
    requires { IsWhole cps.now }
    ensures walked { IfOk result (λ places. places.items ≡ walked cps.now) }
    ensures there { IfOk result (λ places. All (λ t. t < length cps.now.terms.items) places.items) }
{
    let first = first_lams(cps);
    let mut parts = Vec::new(alloc);
    let mut waiting = Vec::new(alloc);
    let mut places = Vec::new(alloc);
    push_roots(cps, first, &mut parts)?;
    move_over(&mut parts, &mut waiting)?;
    while let Some(place) = waiting.pop() {
        places.push(place)?;
        visit(cps, first, place, &mut parts, &mut waiting)?;
    }
    Ok(places)
}
