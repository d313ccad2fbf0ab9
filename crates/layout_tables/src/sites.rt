// The continuations that have a name at a place, and the CATCHes that are open there.
ghost use Rattle.std.specs.Prelude.{◌≡◌, ◌∷◌, ◌+◌, [], length, drop, IfOk, OnOk, MatchOption, IsTrue, ◌<◌};
ghost use Rattle.layout_relation.specs.Contexts.{IsUnneeded};
ghost use Rattle.layout_tables.specs.Sketches.{exits_at, IsWay, IsPlaced, way_out};
ghost use Rattle.layout_tables.specs.declared.tables.Tables.{Tables as KnownTables};

use crate::tables::{Tables, is_needed_behind};
use std::alloc::Global;
use std::marker::Model;
use t_base::{Memory, Var};

/// A Join: its `k`, its parameter and body, and the block that lays out the body.
#[derive(Clone, Copy, PartialEq, Eq, Debug)]
pub struct Join {
    pub k: Var,
    pub param: Var,
    pub body: u32,
    pub block: u32,
}

/// An open CATCH: whether a frame of a continuation of its own waits below its frame.
#[derive(Clone, Copy, PartialEq, Eq, Debug)]
pub enum Opened {
    Bare,
    Framed,
}

/// Where a continuation leads: out of the procedure, to a Join, which stands at a place among the Joins, or nowhere.
#[derive(Clone, Copy, PartialEq, Eq, Debug)]
pub enum Way {
    Leaves,
    Meets { join: Join, place: usize },
    Nowhere,
}

/// The Joins around a place, the innermost first, the `k` of the procedure, and the open CATCHes, the innermost first.
#[derive(Drop)]
pub struct Site {
    joins: Vec<Join>,
    own: Option<Var>,
    catches: Vec<Opened>,
}

impl Model for Site {
    ghost use Rattle.layout_tables.specs.Around.{Around};

    ghost Value = { Around };

    ghost view = { λ s. record { joins = s.joins.items; own = s.own; catches = s.catches.items } };
}

impl Site {
    /// The start of a procedure with this `k`, or of the program.
    pub fn new(alloc: Global, own: Option<Var>) -> Site
        ensures { result ≡ record { joins = []; own = own; catches = [] } }
    {
        Site {
            joins: Vec::new(alloc),
            own,
            catches: Vec::new(alloc),
        }
    }

    /// The same.
    pub fn copy(&self, alloc: Global) -> Result<Site, Memory>
        ensures { IfOk result (λ site. site ≡ self.now) }
    {
        Ok(Site {
            joins: Vec::from_slice(alloc, &self.joins)?,
            own: self.own,
            catches: Vec::from_slice(alloc, &self.catches)?,
        })
    }

    /// The same outside of the Join at a place.
    pub fn outside(&self, alloc: Global, place: usize) -> Result<Site, Memory>
        requires { place < length self.now.joins }
        ensures { IfOk result (λ site. site ≡ record self.now { joins = drop (place + 1) self.now.joins }) }
    {
        Ok(Site {
            joins: Vec::from_slice(alloc, &self.joins[place + 1..])?,
            own: self.own,
            catches: Vec::from_slice(alloc, &self.catches)?,
        })
    }

    /// Goes into a Join.
    pub fn meet(&mut self, join: Join) -> Result<(), Memory>
        ensures { OnOk result (self.new ≡ record self.old { joins = join ∷ self.old.joins }) }
    {
        self.joins.insert(0, join)?;
        Ok(())
    }

    /// Goes into a CATCH.
    pub fn open(&mut self, catch: Opened) -> Result<(), Memory>
        ensures { OnOk result (self.new ≡ record self.old { catches = catch ∷ self.old.catches }) }
    {
        self.catches.insert(0, catch)?;
        Ok(())
    }

    /// Ends the innermost CATCH, and gives it.
    pub fn close(&mut self) -> Option<Opened>
        ensures catch { MatchOption result (self.new ≡ self.old) (λ catch. self.old.catches ≡ catch ∷ self.new.catches) }
        ensures joins { self.new.joins ≡ self.old.joins }
        ensures own { self.new.own ≡ self.old.own }
    {
        if self.catches.is_empty() {
            return None;
        }
        Some(self.catches.remove(0))
    }

    /// Whether two are the same.
    pub fn is_same(&self, other: &Site) -> bool
        ensures { IsTrue result → self.now ≡ other.now }
    {
        let joins = same_joins(&self.joins, &other.joins);
        let own = same_own(self.own, other.own);
        let catches = same_catches(&self.catches, &other.catches);
        joins && own && catches
    }

    /// Whether no CATCH is open.
    pub fn has_no_catch(&self) -> bool
        ensures { IsTrue result → self.now.catches ≡ [] }
    {
        self.catches.is_empty()
    }

    /// Where a continuation leads.
    pub fn way(&self, k: Var) -> Way
        ensures way { (w : KnownTables) → IsWay w self.now k result }
        ensures there { IsPlaced self.now result }
    {
        for place in 0..self.joins.len() {
            let join = self.joins[place];
            if join.k.0 == k.0 {
                return Way::Meets { join, place };
            }
        }
        self.way_out(k)
    }

    /// Where a continuation leads that is no Join's.
    fn way_out(&self, k: Var) -> Way
        ensures { result ≡ way_out self.now.own k }
    {
        match self.own {
            Some(own) if own.0 == k.0 => Way::Leaves,
            _ => Way::Nowhere,
        }
    }

    /// Whether no Join needs a variable.
    pub fn is_unneeded(&self, tables: &Tables, var: Var) -> bool
        ensures { IsTrue result → IsUnneeded (exits_at tables.now self.now) var.0 }
    {
        for join in &self.joins {
            if is_needed_behind(tables, join.param, join.body, var) {
                return false;
            }
        }
        true
    }
}

fn is_same_join(join: Join, other: Join) -> bool
    ensures { IsTrue result → join ≡ other }
{
    join.k.0 == other.k.0
        && join.param.0 == other.param.0
        && join.body == other.body
        && join.block == other.block
}

fn same_joins(joins: &[Join], others: &[Join]) -> bool
    ensures { IsTrue result → joins.now ≡ others.now }
{
    if joins.len() != others.len() {
        return false;
    }
    for place in 0..joins.len() {
        if !is_same_join(joins[place], others[place]) {
            return false;
        }
    }
    true
}

fn same_own(own: Option<Var>, other: Option<Var>) -> bool
    ensures { IsTrue result → own ≡ other }
{
    match (own, other) {
        (None, None) => true,
        (Some(k), Some(j)) => k.0 == j.0,
        _ => false,
    }
}

fn is_same_catch(catch: Opened, other: Opened) -> bool
    ensures { IsTrue result → catch ≡ other }
{
    match (catch, other) {
        (Opened::Bare, Opened::Bare) | (Opened::Framed, Opened::Framed) => true,
        _ => false,
    }
}

fn same_catches(catches: &[Opened], others: &[Opened]) -> bool
    ensures { IsTrue result → catches.now ≡ others.now }
{
    if catches.len() != others.len() {
        return false;
    }
    for place in 0..catches.len() {
        if !is_same_catch(catches[place], others[place]) {
            return false;
        }
    }
    true
}
