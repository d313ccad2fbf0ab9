// What a unit defines, by the places of names.
ghost use Rattle.std.specs.Prelude.{◌≡◌, ◌≢◌, ◌++◌, ◌∷◌, [], Some, None, List, ℕ, AllPairs, replicate, slice_get, take, IfOk, OnOk};
ghost use Rattle.t_reader.specs.Unit.{fixed_names};
ghost use Rattle.t_objects.specs.Operations.{builtin_entries};
ghost use Rattle.t_forms.specs.declared.arena.Cell.{Cell};
ghost use Rattle.t_rows.specs.Rows.{Definition as SpecDefinition};
ghost use Rattle.form_rows.specs.Definitions.{IsDefinition};
ghost use Rattle.t_rows.specs.Bindings.{IsBinder};
ghost use Rattle.expansion.specs.Units.{Top as SpecTop, Entry, defined_name, with_top, with_definition, entries_of};
ghost use Rattle.unit_tops.specs.Tops.{IsTop, AreTops};
ghost use Rattle.unit_tops.specs.Entries.{AreEntries, IsGlobalAdded, IsOpAdded, IsPut};

use crate::tops::Top;
use form_rows::Definition;
use std::alloc::Global;
use t_base::{Global1, GlobalKind, Memory, Name, Names, OpInfo};
use t_forms::{Defined, LocalName};
use t_rows::names::Binder;

/// What a unit defines: by the places of names what each is, and the globals and operations. A global that a DEFINE defines is a value
/// until its form is expanded.
#[derive(Drop)]
pub struct Entries {
    pub table: Vec<Option<Defined>>,
    pub globals: Vec<Global1>,
    pub ops: Vec<OpInfo>,
}

/// The name that a definition defines.
pub fn defined_name(definition: &Definition) -> Binder
    ensures { (names : List (List ℕ)) (cells : List Cell) (d : SpecDefinition) → IsDefinition names cells definition.now d → IsBinder names result (defined_name d) }
{
    match definition {
        Definition::Define { name, .. } => *name,
        Definition::Lset { name, .. } => *name,
        Definition::Operation { name, .. } => *name,
    }
}

fn builtin_ops(alloc: Global) -> Result<Vec<OpInfo>, Memory>
    ensures { IfOk result (λ ops. ops.items ≡ builtin_entries) }
{
    let mut ops = Vec::new(alloc);
    ops.push(OpInfo {
        name: Name(0),
        default: false,
    })?;
    ops.push(OpInfo {
        name: Name(1),
        default: false,
    })?;
    ops.push(OpInfo {
        name: Name(2),
        default: false,
    })?;
    Ok(ops)
}

fn no_definitions(alloc: Global, count: usize) -> Result<Vec<Option<Defined>>, Memory>
    ensures { IfOk result (λ table. table.items ≡ replicate count None) }
{
    let table = vec![in alloc; None; count]?;
    Ok(table)
}

/// What stands at a name's place.
fn defined_at(table: &[Option<Defined>], name: Name) -> Option<Option<Defined>>
    ensures { result ≡ slice_get table.now name.0 }
{
    table.get(name.0 as usize).copied()
}

impl Entries {
    /// Of a unit with these names that defines nothing. The only error is the want of memory.
    fn new(alloc: Global, names: &Names) -> Result<Entries, Memory>
        ensures { (others : List (List ℕ)) → names.now ≡ fixed_names ++ others → IfOk result (λ e. AreEntries names.now e []) }
    {
        let table = no_definitions(alloc, names.count() as usize)?;
        let globals = Vec::new(alloc);
        let ops = builtin_ops(alloc)?;
        Ok(Entries {
            table,
            globals,
            ops,
        })
    }

    /// Puts a global last. The only error is the want of memory.
    fn add_global(&mut self, name: Name, kind: GlobalKind) -> Result<(), Memory>
        ensures { OnOk result (IsGlobalAdded self.old self.new name kind) }
    {
        let at = name.0 as usize;
        let place = self.globals.len();
        if place >= u32::MAX as usize || at >= self.table.len() {
            return Err(Memory);
        }
        let assigned = match kind {
            GlobalKind::Variable => true,
            _ => false,
        };
        self.table[at] = Some(Defined::Global {
            place: place as u32,
            assigned,
        });
        self.globals.push(Global1 { name, kind })?;
        Ok(())
    }

    /// Puts an operation last. The only error is the want of memory.
    fn add_op(&mut self, name: Name, default: bool) -> Result<(), Memory>
        ensures { OnOk result (IsOpAdded self.old self.new name default) }
    {
        let at = name.0 as usize;
        let place = self.ops.len();
        if place >= u32::MAX as usize || at >= self.table.len() {
            return Err(Memory);
        }
        self.table[at] = Some(Defined::Operation(place as u32));
        self.ops.push(OpInfo { name, default })?;
        Ok(())
    }

    /// Puts what a definition defines last.
    fn put(&mut self, name: Name, definition: &Definition) -> Result<(), Memory>
        ensures { OnOk result (IsPut self.old self.new name definition.now) }
    {
        match definition {
            Definition::Define { .. } => self.add_global(name, GlobalKind::Value),
            Definition::Lset { .. } => self.add_global(name, GlobalKind::Variable),
            Definition::Operation { default, .. } => self.add_op(name, default.is_some()),
        }
    }

    /// Puts what a definition defines last, if its name is new. A new variable is never defined, which is answered as want of memory.
    fn add(&mut self, definition: &Definition) -> Result<(), Memory>
        ensures { (names : List (List ℕ)) (cells : List Cell) (d : SpecDefinition) (entries : List Entry) → AllPairs (λ a b. a ≢ b) names → IsDefinition names cells definition.now d → AreEntries names self.old entries → OnOk result (AreEntries names self.new (with_definition entries d)) }
    {
        let name = match defined_name(definition).name {
            LocalName::Written(name) => name,
            LocalName::Made(_) => return Err(Memory),
        };
        match defined_at(self.table.as_slice(), name) {
            None => Err(Memory),
            Some(Some(_)) => Ok(()),
            Some(None) => self.put(name, definition),
        }
    }

    fn add_top(&mut self, top: &Top) -> Result<(), Memory>
        ensures { (names : List (List ℕ)) (cells : List Cell) (t : SpecTop) (entries : List Entry) → AllPairs (λ a b. a ≢ b) names → IsTop names cells top.now t → AreEntries names self.old entries → OnOk result (AreEntries names self.new (with_top entries t)) }
    {
        match top {
            Top::Defining(definition) => self.add(definition),
            Top::Broken(_) => Ok(()),
            Top::Expression(_) => Ok(()),
        }
    }
}

/// What the forms define. The only error is the want of memory.
pub fn entries_of(alloc: Global, names: &Names, tops: &[Top]) -> Result<Entries, Memory>
    ensures { (cells : List Cell) (ts : List SpecTop) (others : List (List ℕ)) → names.now ≡ fixed_names ++ others → AllPairs (λ a b. a ≢ b) names.now → AreTops names.now cells tops.now ts → IfOk result (λ e. AreEntries names.now e (entries_of ts)) }
{
    let mut entries = Entries::new(alloc, names)?;
    'tops: for top in tops {
        entries.add_top(top)?;
    }
    Ok(entries)
}
