// What a conversion makes.
ghost use Rattle.std.specs.Prelude.{◌≡◌, IfOk};
ghost use Rattle.cps_convert.specs.Growing.{AddsTerm, AddsProcedure, TakesNew};

use cps_ir::{Lam, Term};
use t_base::{Memory, Var};

/// The procedure of a LAMBDA or a method, and where that stands in the unit: its form, and its node there, or the node of the OBJECT.
#[derive(Drop)]
pub struct Procedure {
    pub lam: Lam,
    pub form: u32,
    pub node: u32,
}

/// What is made so far: the terms, each behind those that it names, the procedures of LAMBDAs and methods, which stand behind `first` others
/// in the program, and the number of the next new variable.
#[derive(Drop)]
pub struct Conversion {
    pub terms: Vec<Term>,
    pub procedures: Vec<Procedure>,
    pub first: u32,
    pub next: u32,
}

impl Conversion {
    /// Puts a term last and gives its place.
    pub(crate) fn add(&mut self, term: Term) -> Result<u32, Memory>
        ensures { IfOk result (AddsTerm self.old self.new term) }
    {
        let Ok(place) = u32::try_from(self.terms.len()) else {
            return Err(Memory);
        };
        self.terms.push(term)?;
        Ok(place)
    }

    /// Puts a procedure last, that of the LAMBDA at a node, and gives its place in the program.
    pub(crate) fn add_procedure(&mut self, lam: Lam, form: u32, node: u32) -> Result<u32, Memory>
        ensures { IfOk result (AddsProcedure self.old self.new (record { lam = lam; form = form; node = node })) }
    {
        let Ok(count) = u32::try_from(self.procedures.len()) else {
            return Err(Memory);
        };
        let Some(place) = self.first.checked_add(count) else {
            return Err(Memory);
        };
        self.procedures.push(Procedure { lam, form, node })?;
        Ok(place)
    }

    /// A new variable.
    pub(crate) fn fresh(&mut self) -> Result<Var, Memory>
        ensures { IfOk result (TakesNew self.old self.new) }
    {
        let var = Var(self.next);
        match self.next.checked_add(1) {
            Some(next) => {
                self.next = next;
                Ok(var)
            }
            None => Err(Memory),
        }
    }
}
