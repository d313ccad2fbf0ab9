// The LAMBDAs that are roots of forms.
ghost use Rattle.std.specs.Prelude.{IfOk};
ghost use Rattle.cps_convert.specs.Claims.{HasMarks};
ghost use Rattle.cps_convert.specs.Firsts.{RootMade};

use crate::conversion::Conversion;
use crate::nodes::procedure;
use crate::ready::node_at;
use cps_ir::Lam;
use std::alloc::Global;
use t_base::Memory;
use t_core::{Core, UnitCore};

/// The procedure of the LAMBDA that is the root of the form at a place. The only error is the want of memory, which is answered too where
/// the root is no LAMBDA.
pub fn root(
    alloc: Global,
    unit: &UnitCore,
    marks: &[bool],
    made: &mut Conversion,
    at: u32,
) -> Result<Lam, Memory>
    ensures { HasMarks unit.now marks.now → IfOk result (RootMade unit.now marks.now made.old made.new at) }
{
    let Some(form) = unit.forms.get(at as usize) else {
        return Err(Memory);
    };
    let key = form.root;
    if key >= unit.shared.size {
        return Err(Memory);
    }
    match node_at(unit, at, key) {
        Some(Core::Lambda { params, body }) => {
            let params = params.as_slice();
            let lam = procedure(alloc, unit, marks, at, made, key, params, *body)?;
            Ok(lam)
        }
        _ => Err(Memory),
    }
}
