// What is known of a unit before it is converted.
ghost use Rattle.std.specs.Prelude.{IfOk};
ghost use Rattle.t_core.specs.Whole.{IsWhole};
ghost use Rattle.cps_convert.specs.Claims.{Setting};

use crate::marks::marks_of;
use crate::numbers::first_new;
use std::alloc::Global;
use t_base::Memory;
use t_core::UnitCore;

/// A mark for each variable of a unit, whether it is assigned, and the number of the first new variable.
#[derive(Drop)]
pub struct Known {
    pub marks: Vec<bool>,
    pub base: u32,
}

/// What conversion needs to know of a unit. It is linear in the nodes. The only error is the want of memory.
pub fn survey(alloc: Global, unit: &UnitCore) -> Result<Known, Memory>
    ensures { IfOk result (λ known. IsWhole unit.now → Setting unit.now known.marks.items known.base) }
{
    let marks = marks_of(alloc, unit)?;
    let base = first_new(unit)?;
    Ok(Known { marks, base })
}
