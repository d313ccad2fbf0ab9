// The places that terms name.
ghost use Rattle.std.specs.Prelude.{◌≡◌, ◌≤◌, ◌<◌, [], ◌∷◌, length, OnOk};
ghost use Rattle.cps_ir.specs.Parts.{first_lams};
ghost use Rattle.cps_walk.specs.Walks.{part_places, root_places};
ghost use Rattle.cps_order.specs.Order.{AreNamed, IsOrderedFrom, IsOrdered};

use cps_ir::{Cps, Term};
use cps_walk::{is_marked, mark, push_parts, push_roots};
use std::alloc::Global;
use t_base::Memory;

/// Marks a place below a bound, which isn't marked yet.
fn name_place(marks: &mut Vec<bool>, above: usize, place: u32) -> Result<(), Memory>
    ensures { OnOk result (AreNamed above (place ∷ []) marks.old.items marks.new.items) }
{
    if place as usize >= above {
        return Err(Memory);
    }
    if is_marked(marks, place) {
        return Err(Memory);
    }
    mark(marks, place)?;
    Ok(())
}

/// Marks places below a bound, each of which isn't marked yet.
pub(crate) fn name_places(marks: &mut Vec<bool>, above: usize, places: &[u32]) -> Result<(), Memory>
    ensures { OnOk result (AreNamed above places.now marks.old.items marks.new.items) }
{
    'places: for place in places {
        name_place(marks, above, *place)?;
    }
    Ok(())
}

/// Marks the entry of a program and the bodies of the procedures of globals and operations.
fn name_roots(alloc: Global, cps: &Cps, first: usize, marks: &mut Vec<bool>) -> Result<(), Memory>
    requires first { first ≡ first_lams cps.now }
    requires there { first ≤ length cps.now.lams.items }
    ensures { OnOk result (AreNamed (length cps.now.terms.items) (root_places cps.now) marks.old.items marks.new.items) }
{
    let mut places = Vec::new(alloc);
    push_roots(cps, first, &mut places)?;
    name_places(marks, cps.terms.len(), &places)?;
    Ok(())
}

/// Marks what a term names, which stands before its place.
fn name_parts(
    alloc: Global,
    cps: &Cps,
    first: usize,
    marks: &mut Vec<bool>,
    at: usize,
    term: &Term,
) -> Result<(), Memory>
    requires { first ≡ first_lams cps.now }
    ensures { OnOk result (AreNamed at (part_places cps.now term.now) marks.old.items marks.new.items) }
{
    let mut places = Vec::new(alloc);
    push_parts(cps, first, term, &mut places)?;
    name_places(marks, at, &places)?;
    Ok(())
}

/// Marks what the terms name from the last one to the first, each of which is marked when its turn comes.
fn name_terms(alloc: Global, cps: &Cps, first: usize, marks: &mut Vec<bool>) -> Result<(), Memory>
    requires { first ≡ first_lams cps.now }
    ensures { IsOrderedFrom cps.now (length cps.now.terms.items) marks.old.items → OnOk result (IsOrderedFrom cps.now 0 marks.new.items) }
{
    let mut at = cps.terms.len();
    'terms: while at > 0 {
        at -= 1;
        let Ok(place) = u32::try_from(at) else {
            return Err(Memory);
        };
        if !is_marked(marks, place) {
            return Err(Memory);
        }
        name_parts(alloc, cps, first, marks, at, &cps.terms[at])?;
    }
    Ok(())
}

/// Checks that each term of a program stands behind those that it names, and is named exactly once. It is linear in the terms and their
/// arguments. The only error is the want of memory, which is answered too where the terms don't stand so.
pub fn check_order(alloc: Global, cps: &Cps, first: usize) -> Result<(), Memory>
    requires first { first ≡ first_lams cps.now }
    requires there { first ≤ length cps.now.lams.items }
    ensures { OnOk result (IsOrdered cps.now) }
{
    let mut marks = Vec::new(alloc);
    name_roots(alloc, cps, first, &mut marks)?;
    name_terms(alloc, cps, first, &mut marks)?;
    Ok(())
}
