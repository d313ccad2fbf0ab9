// The variables that are held at a place, and where.
ghost use Rattle.std.specs.Prelude.{◌≡◌, ◌∷◌, ◌++◌, [], IfOk, OnOk, MatchOption, IsTrue};
ghost use Rattle.cps_ir.specs.Reaches.{is_in};
ghost use Rattle.layout_relation.specs.Links.{IsIn};
ghost use Rattle.layout_relation.specs.Contexts.{paired};
ghost use Rattle.layout_relation.specs.Laid.{numbers, AreHeld, AreDistinct};
ghost use Rattle.layout_tables.specs.Sketches.{IsNotHeld};

use std::alloc::Global;
use std::marker::Model;
use t_base::{Memory, Var};

/// A variable of the program, and the variable of the frames that holds its value.
#[derive(Clone, Copy, PartialEq, Eq, Debug)]
struct Held {
    var: Var,
    at: Var,
}

/// The variables that are held, which contracts see as a list of pairs of numbers, the last one that was bound first.
#[derive(Drop)]
pub struct Scope {
    items: Vec<Held>,
}

impl Model for Scope {
    ghost use Rattle.std.specs.Prelude.{List, ℕ, map, reverse};

    ghost Value = { List (ℕ × ℕ) };

    ghost view = { λ s. map (λ h. (h.var.0, h.at.0)) (reverse s.items.items) };
}

impl Scope {
    /// Nothing is held. It takes no memory.
    pub fn new(alloc: Global) -> Scope
        ensures { result ≡ [] }
    {
        Scope {
            items: Vec::new(alloc),
        }
    }

    /// One more variable is held.
    pub fn hold(&mut self, var: Var, at: Var) -> Result<(), Memory>
        ensures { OnOk result (self.new ≡ (var.0, at.0) ∷ self.old) }
    {
        self.items.push(Held { var, at })?;
        Ok(())
    }

    /// As many more are held as there are on both sides.
    pub fn hold_all(&mut self, vars: &[Var], ats: &[Var]) -> Result<(), Memory>
        ensures { OnOk result (self.new ≡ paired (numbers vars.now) ats.now ++ self.old) }
    {
        let count = vars.len().min(ats.len());
        for behind in 0..count {
            let place = count - 1 - behind;
            self.hold(vars[place], ats[place])?;
        }
        Ok(())
    }

    /// Where a variable is held, if it is.
    pub fn find(&self, var: Var) -> Option<Var>
        ensures { MatchOption result (Unit {0}) (λ at. IsIn (var.0, at.0) self.now) }
    {
        for held in &self.items {
            if held.var.0 == var.0 {
                return Some(held.at);
            }
        }
        None
    }

    /// Whether a variable isn't held.
    pub fn lacks(&self, var: Var) -> bool
        ensures { IsTrue result → IsNotHeld self.now var.0 }
    {
        for held in &self.items {
            if held.var.0 == var.0 {
                return false;
            }
        }
        true
    }

    /// The same variables, held at the same places.
    pub fn copy(&self, alloc: Global) -> Result<Scope, Memory>
        ensures { IfOk result (λ scope. scope ≡ self.now) }
    {
        let items = Vec::from_slice(alloc, self.items.as_slice())?;
        Ok(Scope { items })
    }
}

/// Where each of some variables is held. A variable that isn't held is answered as want of memory.
pub fn find_all(alloc: Global, scope: &Scope, vars: &[Var]) -> Result<Vec<Var>, Memory>
    ensures { IfOk result (λ ats. AreHeld scope.now (numbers vars.now) ats.items) }
{
    let mut ats = Vec::new(alloc);
    for var in vars {
        let Some(at) = scope.find(*var) else {
            return Err(Memory);
        };
        ats.push(at)?;
    }
    Ok(ats)
}

/// Whether a variable is among some.
pub fn names(vars: &[Var], var: Var) -> bool
    ensures { result ≡ is_in (numbers vars.now) var.0 }
{
    for other in vars {
        if other.0 == var.0 {
            return true;
        }
    }
    false
}

/// Whether no variable stands twice among some.
pub fn are_distinct(vars: &[Var]) -> bool
    ensures { IsTrue result → AreDistinct (numbers vars.now) }
{
    let mut rest = vars;
    while let Some((var, others)) = rest.split_first() {
        if names(others, *var) {
            return false;
        }
        rest = others;
    }
    true
}

/// Whether variables are the same, in the same order.
pub fn are_same(vars: &[Var], others: &[Var]) -> bool
    ensures { IsTrue result → vars.now ≡ others.now }
{
    if vars.len() != others.len() {
        return false;
    }
    for place in 0..vars.len() {
        if vars[place].0 != others[place].0 {
            return false;
        }
    }
    true
}
