// Where globals and operations are defined.
use std::alloc::Global;
use t_base::Memory;
use t_core::{FormKind, UnitCore};

/// For each global and for each operation a place among the forms. One that no form defines has place 0.
#[derive(Drop)]
pub(crate) struct Sites {
    pub(crate) globals: Vec<u32>,
    pub(crate) ops: Vec<u32>,
}

/// Notes a place for a number that is within a table.
fn note(table: &mut [u32], n: u32, place: u32) {
    if (n as usize) < table.len() {
        table[n as usize] = place;
    }
}

/// The places of the forms that define the globals and the operations of a unit. What it says of a definition is looked up before it is used.
/// It is linear in the forms. The only error is the want of memory.
pub(crate) fn sites_of(alloc: Global, unit: &UnitCore) -> Result<Sites, Memory> {
    let mut globals = vec![in alloc; 0; unit.shared.globals.len()]?;
    let mut ops = vec![in alloc; 0; unit.shared.ops.len()]?;
    let mut at = 0;
    'forms: while at < unit.forms.len() {
        let Ok(place) = u32::try_from(at) else {
            return Err(Memory);
        };
        match unit.forms[at].kind {
            FormKind::Define(g) => note(&mut globals, g, place),
            FormKind::Operation(o) => note(&mut ops, o, place),
            FormKind::Lset(_) | FormKind::Plain => {}
        }
        at += 1;
    }
    Ok(Sites { globals, ops })
}
