// Programs whose parts stand apart.
ghost use Rattle.std.specs.Prelude.{◌≡◌, ◌≤◌, length, OnOk};
ghost use Rattle.cps_ir.specs.Parts.{first_lams};
ghost use Rattle.cps_order.specs.Order.{StandsApart};

use crate::binders::check_binders;
use crate::lambdas::check_lambdas;
use crate::naming::check_order;
use cps_ir::Cps;
use std::alloc::Global;
use t_base::Memory;

/// Checks that each term of a program stands behind those that it names, that each term and each procedure is named exactly once, and that
/// no variable is bound twice. It is linear in the terms and what they name. The only error is the want of memory, which is answered too
/// where it is otherwise.
pub fn check_apart(alloc: Global, cps: &Cps, first: usize) -> Result<(), Memory>
    requires first { first ≡ first_lams cps.now }
    requires there { first ≤ length cps.now.lams.items }
    ensures { OnOk result (StandsApart cps.now) }
{
    check_order(alloc, cps, first)?;
    check_lambdas(alloc, cps, first)?;
    check_binders(alloc, cps)?;
    Ok(())
}
