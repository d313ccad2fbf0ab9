// The choice of a strategy for each procedure.
ghost use Rattle.std.specs.Prelude.{◌≡◌, ℕ, ◌<◌, ◌||◌, length, take, Bool, IfOk, OnOk};
ghost use Rattle.cps_ir.specs.Parts.{first_lams};
ghost use Rattle.cps_ir.specs.Reaches.{is_in, methods_of};
ghost use Rattle.cps_ir.specs.Whole.{IsWhole};
ghost use Rattle.cps_known.specs.KnownMarks.{MarkEnough};
ghost use Rattle.cps_walk.specs.Marked.{is_marked};
ghost use Rattle.closure_strategy.specs.Plans.{chosen, is_method, IsPlan};

use crate::{Plan, Strategy};
use cps_ir::{Cps, Term};
use cps_known::Marks;
use cps_walk::{first_lams, is_marked, mark, walk};
use std::alloc::Global;
use t_base::Memory;

/// Marks each of these places.
fn mark_all(marks: &mut Vec<bool>, places: &[u32]) -> Result<(), Memory>
    ensures { OnOk result ((l : ℕ) → is_marked marks.new.items l ≡ (is_marked marks.old.items l || is_in places.now l)) }
{
    for place in places {
        mark(marks, *place)?;
    }
    Ok(())
}

/// Marks the methods of a term.
fn mark_methods(marks: &mut Vec<bool>, term: &Term) -> Result<(), Memory>
    ensures { OnOk result ((l : ℕ) → is_marked marks.new.items l ≡ (is_marked marks.old.items l || is_in (methods_of term.now) l)) }
{
    if let Term::Object { methods, .. } = term {
        mark_all(marks, methods.as_slice())?;
    }
    Ok(())
}

/// A mark for each procedure, up to the last one that is a method: whether it is one. The only error is the want of memory.
fn methods(alloc: Global, cps: &Cps) -> Result<Vec<bool>, Memory>
    requires { IsWhole cps.now }
    ensures { IfOk result (λ marks. (l : ℕ) → is_marked marks.items l ≡ is_method cps.now l) }
{
    let places = walk(alloc, cps)?;
    let mut marks = Vec::new(alloc);
    for place in &places {
        mark_methods(&mut marks, &cps.terms[*place as usize])?;
    }
    Ok(marks)
}

/// The strategy of the procedure at a place, by the count of those of globals and operations and by the marks of methods.
fn strategy(first: usize, methods: &[bool], l: u32) -> Strategy
    ensures { result ≡ chosen first (is_marked methods.now) l }
{
    if (l as usize) < first {
        Strategy::Static
    } else if is_marked(methods, l) {
        Strategy::Label
    } else {
        Strategy::Heap
    }
}

/// A strategy for each procedure, each with a template of its own. The marks say at least what the rules on escapes mark; which plan is
/// chosen doesn't hang on them yet. It is linear. The only error is the want of memory, which a count of procedures above 2^32 is too.
pub fn choose(alloc: Global, cps: &Cps, marks: &Marks) -> Result<Plan, Memory>
    requires whole { IsWhole cps.now }
    requires marks { MarkEnough cps.now marks.now }
    ensures { IfOk result (IsPlan cps.now) }
{
    let first = first_lams(cps);
    let methods = methods(alloc, cps)?;
    let mut of = Vec::new(alloc);
    let mut template = Vec::new(alloc);
    for place in 0..cps.lams.len() {
        let Ok(l) = u32::try_from(place) else {
            return Err(Memory);
        };
        of.push(strategy(first, &methods, l))?;
        template.push(l)?;
    }
    Ok(Plan { of, template })
}
