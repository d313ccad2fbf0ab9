// Lexical bindings, with the innermost one of each name at hand.
ghost use Rattle.std.specs.Prelude.{◌≡◌, ◌<◌, ◌==◌, ◌∷◌, [], ℕ, length, if◌then◌else◌, OnOk};
ghost use Rattle.t_forms.specs.Lookup.{is_same_key, var_bound, made_place, slot, indexed, HasSlot};
ghost use Rattle.t_forms.specs.Held.{without_first};
ghost use Rattle.t_forms.specs.declared.scope.LocalName.{LocalName as Key};

use crate::arena::New;
use crate::scope::{Local, LocalName};
use std::alloc::Global;
use std::marker::Model;
use t_base::{Memory, Var};

/// A binding, and the variable of the one that it hides, where there is one.
#[derive(Clone, Copy, PartialEq, Eq, Debug)]
struct Binding {
    local: Local,
    hidden: Option<Var>,
}

/// The variable of the innermost binding of each name, by the places of names, and of each new variable.
#[derive(Drop)]
struct Innermost {
    written: Vec<Option<Var>>,
    made: Vec<Option<Var>>,
}

/// The bindings around a form. Contracts see their list, the innermost first. Each of its calls takes constant time, but for the room
/// that a name needs at its first binding.
#[derive(Drop)]
pub struct Locals {
    bindings: Vec<Binding>,
    innermost: Innermost,
}

impl Model for Locals {
    ghost use Rattle.std.specs.Prelude.{List, map, reverse};
    ghost use Rattle.t_forms.specs.declared.scope.Local.{Local};

    ghost Value = { List Local };

    ghost use Rattle.t_forms.specs.Lookup.{IsIndex};

    ghost view = { λ l. map (λ b. b.local) (reverse l.bindings.items) };

    ghost invariant = { λ l. IsIndex (reverse l.bindings.items) l.innermost.written.items l.innermost.made.items };
}

fn made_place(new: New) -> usize
    ensures { result ≡ made_place new }
{
    match new {
        New::Answer => 0,
        New::Chosen => 1,
        New::Turn => 2,
        New::Start => 3,
        New::Own => 4,
        New::Content => 5,
        New::Part(place) => place as usize + 6,
    }
}

fn slot(slots: &[Option<Var>], at: usize) -> Option<Var>
    ensures { result ≡ slot slots.now at }
{
    match slots.get(at) {
        Some(var) => *var,
        None => None,
    }
}

/// Adds empty slots until there is one at this place.
fn make_room(slots: &mut Vec<Option<Var>>, at: usize) -> Result<(), Memory>
    ensures kept { (k : ℕ) → slot slots.new.items k ≡ slot slots.old.items k }
    ensures room { OnOk result (at < length slots.new.items) }
{
    'room: while slots.len() <= at {
        slots.push(None)?;
    }
    Ok(())
}

/// Fills a slot, which is there.
fn fill(slots: &mut Vec<Option<Var>>, at: usize, var: Option<Var>)
    ensures { at < length slots.old.items → (k : ℕ) → slot slots.new.items k ≡ (if at == k then var else slot slots.old.items k) }
{
    if at < slots.len() {
        slots[at] = var;
    }
}

impl Innermost {
    fn get(&self, name: LocalName) -> Option<Var>
        ensures { result ≡ indexed self.now.written.items self.now.made.items name }
    {
        match name {
            LocalName::Written(name) => slot(self.written.as_slice(), name.0 as usize),
            LocalName::Made(new) => slot(self.made.as_slice(), made_place(new)),
        }
    }

    fn make_room(&mut self, name: LocalName) -> Result<(), Memory>
        ensures kept { (k : Key) → indexed self.new.written.items self.new.made.items k ≡ indexed self.old.written.items self.old.made.items k }
        ensures room { OnOk result (HasSlot self.new.written.items self.new.made.items name) }
    {
        match name {
            LocalName::Written(name) => make_room(&mut self.written, name.0 as usize),
            LocalName::Made(new) => make_room(&mut self.made, made_place(new)),
        }
    }

    fn set(&mut self, name: LocalName, var: Option<Var>)
        ensures { HasSlot self.old.written.items self.old.made.items name → (k : Key) → indexed self.new.written.items self.new.made.items k ≡ (if is_same_key name k then var else indexed self.old.written.items self.old.made.items k) }
    {
        match name {
            LocalName::Written(name) => fill(&mut self.written, name.0 as usize, var),
            LocalName::Made(new) => fill(&mut self.made, made_place(new), var),
        }
    }
}

impl Locals {
    /// No bindings. It takes no memory.
    pub fn new(alloc: Global) -> Locals
        ensures { result ≡ [] }
    {
        Locals {
            bindings: Vec::new(alloc),
            innermost: Innermost {
                written: Vec::new(alloc),
                made: Vec::new(alloc),
            },
        }
    }

    /// One more binding, the innermost. The only error is the want of memory.
    pub fn bind(&mut self, local: Local) -> Result<(), Memory>
        ensures { OnOk result (self.new ≡ local ∷ self.old) }
    {
        self.innermost.make_room(local.name)?;
        let hidden = self.innermost.get(local.name);
        self.bindings.push(Binding { local, hidden })?;
        self.innermost.set(local.name, Some(local.var));
        Ok(())
    }

    /// Ends the innermost binding, where there is one. It takes no memory.
    pub fn unbind(&mut self)
        ensures { self.new ≡ without_first self.old }
    {
        if let Some(binding) = self.bindings.pop() {
            self.innermost.set(binding.local.name, binding.hidden);
        }
    }

    /// The variable of the innermost binding of a name. It takes no memory.
    pub fn var(&self, name: LocalName) -> Option<Var>
        ensures { result ≡ var_bound self.now name }
    {
        self.innermost.get(name)
    }
}
