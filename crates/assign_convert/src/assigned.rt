// Which variables of a program are assigned.
ghost use Rattle.std.specs.Prelude.{◌≡◌, ℕ, ◌||◌, IfOk, OnOk};
ghost use Rattle.cps_ir.specs.Parts.{assigns, is_assigned};
ghost use Rattle.cps_ir.specs.Whole.{IsWhole};
ghost use Rattle.cps_walk.specs.Marked.{is_marked};

use cps_ir::{Cps, Term};
use cps_walk::{mark, walk};
use std::alloc::Global;
use t_base::Memory;

/// Marks the variable that a term assigns, if it assigns one.
fn mark_assigned(marks: &mut Vec<bool>, term: &Term) -> Result<(), Memory>
    ensures { OnOk result ((y : ℕ) → is_marked marks.new.items y ≡ (is_marked marks.old.items y || assigns y term.now)) }
{
    if let Term::Set { var, .. } = term {
        mark(marks, var.0)?;
    }
    Ok(())
}

/// A mark for each variable, up to the last one that is assigned: whether it is assigned. The only error is the want of memory.
pub(crate) fn assigned(alloc: Global, cps: &Cps) -> Result<Vec<bool>, Memory>
    requires { IsWhole cps.now }
    ensures { IfOk result (λ marks. (x : ℕ) → is_marked marks.items x ≡ is_assigned cps.now x) }
{
    let places = walk(alloc, cps)?;
    let mut marks = Vec::new(alloc);
    for place in &places {
        mark_assigned(&mut marks, &cps.terms[*place as usize])?;
    }
    Ok(marks)
}
