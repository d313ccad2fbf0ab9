// The terms that stand in place of those of a program.
ghost use Rattle.std.specs.Prelude.{◌≡◌, map, IfOk, MatchOption};
ghost use Rattle.cps_ir.specs.Whole.{IsWhole};
ghost use Rattle.cps_ir.specs.Loads.{HasLoads};
ghost use Rattle.assign_convert.specs.AssignedCells.{read, given, celled};
ghost use Rattle.cps_walk.specs.Marked.{is_marked};
ghost use Rattle.assign_convert.specs.CellLaws.{IsCellForm};

use crate::assigned::assigned;
use cps_ir::{Arg, Cont, Cps, Term};
use cps_walk::is_marked;
use std::alloc::Global;
use t_base::Memory;

/// The read of a cell, where the value that is given is an assigned variable.
fn read(marks: &[bool], k: Cont, value: Arg) -> Option<Term>
    ensures { MatchOption result (read (is_marked marks.now) k value ≡ Term.Give k value) (λ t. t ≡ read (is_marked marks.now) k value) }
{
    if let Arg::Var(x) = value {
        if is_marked(marks, x.0) {
            return Some(Term::CellGet { cell: x, k });
        }
    }
    None
}

/// What stands in place of a Give, where that is another term.
fn given(marks: &[bool], k: Cont, value: Arg) -> Option<Term>
    ensures { MatchOption result (given (is_marked marks.now) k value ≡ Term.Give k value) (λ t. t ≡ given (is_marked marks.now) k value) }
{
    if let Cont::Lam { param, body } = k {
        if is_marked(marks, param.0) {
            return Some(Term::Cell {
                var: param,
                value,
                rest: body,
            });
        }
    }
    read(marks, k, value)
}

/// What stands in place of a term, where that is another one.
fn changed(marks: &[bool], term: &Term) -> Option<Term>
    ensures { MatchOption result (celled (is_marked marks.now) term.now ≡ term.now) (λ t. t ≡ celled (is_marked marks.now) term.now) }
{
    match term {
        Term::Give { k, value } => given(marks, *k, *value),
        Term::Set { var, value, k } => Some(Term::CellSet {
            cell: *var,
            value: *value,
            k: *k,
        }),
        _ => None,
    }
}

/// Puts what stands in place of a term there.
fn convert_term(marks: &[bool], term: &mut Term)
    ensures { term.new ≡ celled (is_marked marks.now) term.old }
{
    if let Some(new) = changed(marks, term) {
        *term = new;
    }
}

/// Puts what stands in place of each term there.
fn convert(marks: &[bool], terms: &mut [Term])
    ensures { terms.new ≡ map (celled (is_marked marks.now)) terms.old }
{
    for term in terms {
        convert_term(marks, term);
    }
}

/// The program with its assigned variables as cells. The argument meets the rule on loads, by which an assigned variable is bound by the
/// continuation of a Give, and is read by a Give alone: that Give makes a cell, a Give of the variable reads the cell, and a Set writes it.
/// Every other term stays, and so does each term's place. It is linear. The only error is the want of memory.
pub fn cells(alloc: Global, cps: Cps) -> Result<Cps, Memory>
    requires whole { IsWhole cps }
    requires loads { HasLoads cps }
    ensures { IfOk result (IsCellForm cps) }
{
    let marks = assigned(alloc, &cps)?;
    let mut converted = cps;
    convert(&marks, &mut converted.terms);
    Ok(converted)
}
