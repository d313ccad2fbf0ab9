// Which variables a program assigns.
ghost use Rattle.std.specs.Prelude.{◌≡◌, ℕ, ◌||◌, true, IfOk, OnOk};
ghost use Rattle.std.specs.List.{list_any};
ghost use Rattle.cps_ir.specs.Parts.{assigns, is_assigned};
ghost use Rattle.cps_walk.specs.Marked.{is_marked};
ghost use Rattle.cps_order.specs.Order.{IsOrdered};

use cps_ir::{Cps, Term};
use cps_walk::{is_marked, mark};
use std::alloc::Global;
use t_base::Memory;

/// Marks the variable that a term assigns, if it assigns one.
fn mark_term(marks: &mut Vec<bool>, term: &Term) -> Result<(), Memory>
    ensures { OnOk result ((x : ℕ) → is_marked marks.new.items x ≡ (is_marked marks.old.items x || assigns x term.now)) }
{
    if let Term::Set { var, .. } = term {
        mark(marks, var.0)?;
    }
    Ok(())
}

/// A mark for each variable, up to the last one that a term of a list assigns: whether one does.
fn marks_of(alloc: Global, terms: &[Term]) -> Result<Vec<bool>, Memory>
    ensures { IfOk result (λ marks. (x : ℕ) → is_marked marks.items x ≡ list_any (assigns x) terms.now) }
{
    let mut marks = Vec::new(alloc);
    'terms: for term in terms {
        mark_term(&mut marks, term)?;
    }
    Ok(marks)
}

/// Whether what is marked is marked in other marks too.
fn are_among(marks: &[bool], others: &[bool]) -> bool
    ensures { result ≡ true → (x : ℕ) → is_marked marks.now x ≡ true → is_marked others.now x ≡ true }
{
    let mut at = 0;
    'marks: while at < marks.len() {
        let Ok(x) = u32::try_from(at) else {
            return false;
        };
        if marks[at] && !is_marked(others, x) {
            return false;
        }
        at += 1;
    }
    true
}

/// Checks that the variables that are marked are those that a program in order assigns. It is linear in the terms and the marks. The only
/// error is the want of memory, which is answered too where they are others.
pub fn check_assigned(alloc: Global, cps: &Cps, marks: &[bool]) -> Result<(), Memory>
    ensures { IsOrdered cps.now → OnOk result ((x : ℕ) → is_assigned cps.now x ≡ is_marked marks.now x) }
{
    let assigned = marks_of(alloc, cps.terms.as_slice())?;
    if !are_among(&assigned, marks) {
        return Err(Memory);
    }
    if !are_among(marks, &assigned) {
        return Err(Memory);
    }
    Ok(())
}
