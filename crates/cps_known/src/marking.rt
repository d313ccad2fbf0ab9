// Which procedures and variables count as escaping.
ghost use Rattle.std.specs.Prelude.{◌≡◌, true, replicate, IfOk};
ghost use Rattle.cps_ir.specs.Whole.{IsWhole};
ghost use Rattle.cps_known.specs.KnownMarks.{MarkEnough};

use crate::binders::variable_count;
use cps_ir::Cps;
use std::alloc::Global;
use t_base::Memory;

/// Whether the procedure at a place, and the variable of a number, counts as escaping. What the rules on escapes mark is marked, and
/// more may be.
#[derive(Drop)]
pub struct Marks {
    pub lams: Vec<bool>,
    pub vars: Vec<bool>,
}

/// So many marks.
fn all_marked(alloc: Global, count: usize) -> Result<Vec<bool>, Memory>
    ensures { IfOk result (λ marks. marks.items ≡ replicate count true) }
{
    let marks = vec![in alloc; true; count]?;
    Ok(marks)
}

/// The marks of a program: each procedure and each variable counts as escaping. The only error is the want of memory.
pub fn escapes(alloc: Global, cps: &Cps) -> Result<Marks, Memory>
    requires { IsWhole cps.now }
    ensures { IfOk result (MarkEnough cps.now) }
{
    let lams = all_marked(alloc, cps.lams.len())?;
    let vars = all_marked(alloc, variable_count(cps))?;
    Ok(Marks { lams, vars })
}
