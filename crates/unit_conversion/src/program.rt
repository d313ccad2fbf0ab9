// The program of a unit.
ghost use Rattle.std.specs.Prelude.{◌≡◌, ◌++◌, IfOk, OnOk, map};
ghost use Rattle.t_core.specs.Whole.{IsWhole};
ghost use Rattle.cps_conversion.specs.Conversion.{Converts};
ghost use Rattle.cps_order.specs.Order.{StandsApart};
ghost use Rattle.cps_convert.specs.Claims.{HasMarks};
ghost use Rattle.unit_conversion.specs.Parts.{lam_of, ArePartsOf, IsJoined};

use crate::first_lams::{count_firsts, default_lams, global_lams};
use crate::sites::sites_of;
use cps_convert::{Conversion, Procedure, forms};
use cps_ir::{Cps, Lam};
use cps_order::{check_apart, check_assigned};
use cps_units::{Known, survey};
use std::alloc::Global;
use t_base::Memory;
use t_core::UnitCore;

/// What is made for a unit: the procedures of its globals, the defaults of its operations, and all terms and the procedures of its LAMBDAs
/// and methods, with the place of the first term of its forms.
#[derive(Drop)]
pub struct Parts {
    pub globals: Vec<Lam>,
    pub defaults: Vec<Lam>,
    pub made: Conversion,
    pub entry: u32,
}

/// What is made for a unit.
fn parts_of(alloc: Global, unit: &UnitCore, known: &Known) -> Result<Parts, Memory>
    ensures { HasMarks unit.now known.now.marks.items → IfOk result (ArePartsOf unit.now known.now.marks.items known.now.base) }
{
    let first = count_firsts(unit)?;
    let sites = sites_of(alloc, unit)?;
    let marks = known.marks.as_slice();
    let mut made = Conversion {
        terms: Vec::new(alloc),
        procedures: Vec::new(alloc),
        first,
        next: known.base,
    };
    let globals = global_lams(alloc, unit, marks, &sites, &mut made)?;
    let defaults = default_lams(alloc, unit, marks, &sites, &mut made)?;
    let entry = forms(alloc, unit, marks, &mut made)?;
    Ok(Parts {
        globals,
        defaults,
        made,
        entry,
    })
}

/// Puts procedures last.
fn put_lams(lams: &mut Vec<Lam>, more: Vec<Lam>) -> Result<(), Memory>
    ensures { OnOk result (lams.new.items ≡ lams.old.items ++ more.items) }
{
    for lam in more {
        lams.push(lam)?;
    }
    Ok(())
}

/// Puts the procedures of LAMBDAs and methods last.
fn put_procedures(lams: &mut Vec<Lam>, procedures: Vec<Procedure>) -> Result<(), Memory>
    ensures { OnOk result (lams.new.items ≡ lams.old.items ++ map lam_of procedures.items) }
{
    for procedure in procedures {
        lams.push(procedure.lam)?;
    }
    Ok(())
}

/// The program of what is made for a unit, whose shared parts are moved.
fn joined(unit: UnitCore, parts: Parts) -> Result<Cps, Memory>
    ensures { IfOk result (IsJoined unit parts) }
{
    let Parts {
        globals,
        defaults,
        made,
        entry,
    } = parts;
    let Conversion {
        terms,
        procedures,
        ..
    } = made;
    let mut lams = globals;
    put_lams(&mut lams, defaults)?;
    put_procedures(&mut lams, procedures)?;
    Ok(Cps {
        shared: unit.shared,
        lams,
        terms,
        entry,
    })
}

/// The program in continuation-passing style that stands for a whole unit, whose parts stand apart. It is linear in the unit's nodes, and
/// recurs no deeper than a form has nodes. The shared parts are moved. The only error is `Memory`: there is no memory, more terms, procedures
/// or variables are wanted than numbers of 32 bits count, or what was made fails the checks which end each conversion: that each term and
/// procedure is named once and each variable bound once, and that the variables that are assigned are the unit's.
pub fn convert(alloc: Global, unit: UnitCore) -> Result<Cps, Memory>
    requires { IsWhole unit }
    ensures converts { IfOk result (Converts unit) }
    ensures apart { IfOk result StandsApart }
{
    let known = survey(alloc, &unit)?;
    let parts = parts_of(alloc, &unit, &known)?;
    let first = parts.made.first as usize;
    let cps = joined(unit, parts)?;
    check_apart(alloc, &cps, first)?;
    check_assigned(alloc, &cps, known.marks.as_slice())?;
    Ok(cps)
}
