// The names around a form.
ghost use Rattle.std.specs.Prelude.{◌≡◌, ◌≢◌, ◌∷◌, [], List, ℕ, AllPairs, Option, Some, OnOk, option_map, slice_get};
ghost use Rattle.t_forms.specs.Data.{Name as SpecName, written};
ghost use Rattle.t_forms.specs.Held.{Around, IsName, IsTable, IsScope, IsMeaning, vars_of, local, without_first};
ghost use Rattle.t_forms.specs.Names.{Scope as SpecScope, Bound, meaning, builtin_meaning, defined_as, or_else};

use crate::arena::New;
use crate::builtins::{builtin_of, is_spelled};
use crate::locals::Locals;
use std::alloc::Global;
use std::marker::Model;
use t_base::{Memory, Name, Names, Prim, Var};

/// What can be bound: a symbol that is no reserved word, by its place among the names, or a new variable.
#[derive(Clone, Copy, PartialEq, Eq, Debug)]
pub enum LocalName {
    Written(Name),
    Made(New),
}

/// A lexical binding.
#[derive(Clone, Copy, PartialEq, Eq, Debug)]
pub struct Local {
    pub name: LocalName,
    pub var: Var,
}

/// What a unit defines a name as: a global by its place, and whether an LSET defines it, or an operation by its place.
#[derive(Clone, Copy, PartialEq, Eq, Debug)]
pub enum Defined {
    Global { place: u32, assigned: bool },
    Operation(u32),
}

/// What a name means.
#[derive(Clone, Copy, PartialEq, Eq, Debug)]
pub enum Meant {
    /// A lexical variable.
    Local(Var),
    /// A global by its place, and whether an LSET defines it.
    Global { place: u32, assigned: bool },
    /// An operation of the unit by its place.
    Operation(u32),
    /// A builtin.
    Builtin(Prim),
    /// A builtin operation by its place: 0 `setter`, 1 `contents`, 2 `set-contents`.
    BuiltinOperation(u32),
    /// `t`.
    Truth,
    /// `list`, which stands for nothing but as an operator.
    Listing,
    /// Nothing.
    Nothing,
}

/// The names around a form. Contracts see the local names with their variables, the innermost first, and the table of what the unit
/// defines, by the places of names.
#[derive(Drop)]
pub struct Scope {
    locals: Locals,
    table: Vec<Option<Defined>>,
}

impl Model for Scope {
    ghost use Rattle.t_forms.specs.Held.{Around};

    ghost Value = { Around };

    ghost view = { λ s. record { locals = s.locals; table = s.table.items } };
}

/// What a name means where the unit doesn't define it.
fn builtin_meaning(text: &[u8]) -> Meant
    ensures { (vars : List Var) → IsMeaning vars result (builtin_meaning text.now) }
{
    match builtin_of(text) {
        Some(p) => Meant::Builtin(p),
        None => {
            if is_spelled(text, b"setter") {
                Meant::BuiltinOperation(0)
            } else if is_spelled(text, b"contents") {
                Meant::BuiltinOperation(1)
            } else if is_spelled(text, b"set-contents") {
                Meant::BuiltinOperation(2)
            } else if is_spelled(text, b"t") {
                Meant::Truth
            } else if is_spelled(text, b"list") {
                Meant::Listing
            } else {
                Meant::Nothing
            }
        }
    }
}

fn defined_at(table: &[Option<Defined>], name: Name) -> Option<Defined>
    ensures { (d : Option Defined) → slice_get table.now name.0 ≡ Some d → result ≡ d }
{
    match table.get(name.0 as usize) {
        Some(d) => *d,
        None => None,
    }
}

/// What a name means that isn't bound lexically.
fn written_meaning(table: &[Option<Defined>], names: &Names, name: Name) -> Meant
    ensures { (text : List ℕ) (bounds : List Bound) (vars : List Var) → slice_get names.now name.0 ≡ Some text → IsTable names.now table.now bounds → IsMeaning vars result (or_else (λ m. m) (defined_as bounds (written text)) (builtin_meaning text)) }
{
    match defined_at(table, name) {
        Some(Defined::Global { place, assigned }) => Meant::Global { place, assigned },
        Some(Defined::Operation(place)) => Meant::Operation(place),
        None => {
            if name.0 < names.count() {
                builtin_meaning(names.text(name))
            } else {
                Meant::Nothing
            }
        }
    }
}

impl Scope {
    /// No local names, and this table. It takes no memory.
    pub fn new(alloc: Global, table: Vec<Option<Defined>>) -> Scope
        ensures { result ≡ record { locals = []; table = table.items } }
    {
        Scope {
            locals: Locals::new(alloc),
            table,
        }
    }

    /// Binds a name around what follows. The only error is the want of memory.
    pub fn bind(&mut self, name: LocalName, var: Var) -> Result<(), Memory>
        ensures { OnOk result (self.new ≡ record { locals = local name var ∷ self.old.locals; table = self.old.table }) }
    {
        self.locals.bind(Local { name, var })?;
        Ok(())
    }

    /// Ends the innermost binding, where there is one. It takes no memory.
    pub fn unbind(&mut self)
        ensures { self.new ≡ record { locals = without_first self.old.locals; table = self.old.table } }
    {
        self.locals.unbind();
    }

    /// What a name means. It takes no memory.
    pub fn meaning(&self, names: &Names, name: LocalName) -> Meant
        ensures { (n : SpecName) (scope : SpecScope) → AllPairs (λ a b. a ≢ b) names.now → IsName names.now name n → IsScope names.now self.now scope → IsMeaning (vars_of self.now) result (meaning scope n) }
    {
        match self.locals.var(name) {
            Some(var) => Meant::Local(var),
            None => match name {
                LocalName::Made(_) => Meant::Nothing,
                LocalName::Written(place) => written_meaning(self.table.as_slice(), names, place),
            },
        }
    }
}
