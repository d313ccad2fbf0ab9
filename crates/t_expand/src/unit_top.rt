// One form at top level becomes a form of the core.
ghost use Rattle.std.specs.Prelude.{◌≡◌, ◌⊎◌, ◌++◌, ◌∷◌, [], List, ℕ, Some, None, length, map, Contains, IfOk, OnOk};
ghost use Rattle.t_base.specs.declared.shared_parts.Shared.{Shared as SharedParts};
ghost use Rattle.t_forms.specs.declared.arena.Cell.{Cell};
ghost use Rattle.t_forms.specs.Data.{Datum};
ghost use Rattle.t_forms.specs.Data.{Binder as SpecBinder};
ghost use Rattle.t_forms.specs.Names.{Bound};
ghost use Rattle.t_forms.specs.Held.{Held};
ghost use Rattle.t_rows.specs.Rows.{Definition as SpecDefinition, refusal, twice};
ghost use Rattle.form_rows.specs.Definitions.{IsDefinition};
ghost use Rattle.t_rows.specs.Bindings.{IsBinder};
ghost use Rattle.std.specs.List.{AllZip};
ghost use Rattle.t_expand.specs.Growth.{IsGrown, Keeps, IsReady};
ghost use Rattle.unit_tops.specs.Marks.{Marks};
ghost use Rattle.unit_tops.specs.Tops.{IsTop};
ghost use Rattle.expansion.specs.Units.{Top as SpecTop, defining, meaning_of, names_defined};
ghost use Rattle.expansion.specs.Meaning.{RootMeans, ValueMeans, FormMeans, IsKind, top_scope};
ghost use Rattle.expansion.specs.Refusals.{Refused, RefusedDefinition, RefusedTop, IsFirstOf, twice_defined};
ghost use Rattle.t_expand.specs.Rooted.{nodes_of, kind_of};
ghost use Rattle.expansion.specs.Settling.{settled};
ghost use Rattle.t_expand.specs.Tallies.{RootTallied, AreTallied};
ghost use Rattle.t_core.specs.declared.forms.Form.{Form as SpecForm};
ghost use Rattle.t_core.specs.Whole.{is_lambda_at};

use crate::driver_first::noted;
use crate::driver_state::{Expansion, NodeList};
use crate::spans::Spans;
use form_rows::Definition;
use std::mem;
use t_base::{Global1, GlobalKind, Memory, Span};
use t_core::{Core, Form, FormKind};
use t_forms::Meant;
use t_rows::names::{Binder, twice};
use t_rows::{Refusal, SyntaxKind};
use unit_tops::{NameMarks, Top, defined_name};

/// The nodes of a form with their spans, and the place of the root.
#[derive(Drop)]
pub struct Rooted {
    pub nodes: Vec<Core>,
    pub spans: Vec<Span>,
    pub root: u32,
}

/// A form of the core with the spans of its nodes.
#[derive(Drop)]
pub struct Expanded {
    pub form: Form,
    pub spans: Spans,
}

fn kind_of(definition: &Definition, meant: Meant) -> Option<FormKind>
    ensures { result ≡ kind_of definition.now meant }
{
    match definition {
        Definition::Define { .. } => match meant {
            Meant::Global {
                place,
                assigned: false,
            } => Some(FormKind::Define(place)),
            _ => None,
        },
        Definition::Lset { .. } => match meant {
            Meant::Global {
                place,
                assigned: true,
            } => Some(FormKind::Lset(place)),
            _ => None,
        },
        Definition::Operation { .. } => match meant {
            Meant::Operation(place) => Some(FormKind::Operation(place)),
            _ => None,
        },
    }
}

fn is_lambda(nodes: &[Core], root: u32) -> bool
    ensures { result ≡ is_lambda_at nodes.now root }
{
    match nodes.get(root as usize) {
        Some(node) => matches!(node, Core::Lambda { .. }),
        None => false,
    }
}

/// A global becomes a procedure where its DEFINE has a LAMBDA as root.
fn settle(globals: &mut Vec<Global1>, kind: FormKind, rooted: &Rooted)
    ensures names { map (λ g. g.name) globals.new.items ≡ map (λ g. g.name) globals.old.items }
    ensures settled { globals.new.items ≡ settled globals.old.items kind rooted.now.nodes.items rooted.now.root }
{
    if let FormKind::Define(place) = kind {
        let at = place as usize;
        if at < globals.len() && is_lambda(rooted.nodes.as_slice(), rooted.root) {
            globals[at].kind = GlobalKind::Proc;
        }
    }
}

fn finished(kind: FormKind, rooted: Rooted) -> Expanded
    ensures kind { result.form.kind ≡ kind }
    ensures root { result.form.root ≡ rooted.root }
    ensures nodes { result.form.nodes.items ≡ rooted.nodes.items }
    ensures spans { result.spans ≡ rooted.spans.items }
{
    let Rooted { nodes, spans, root } = rooted;
    Expanded {
        form: Form { kind, nodes, root },
        spans: Spans::from_vec(spans),
    }
}

impl Expansion {
    /// Notes what is refused.
    fn note(&mut self, refusals: &[Refusal])
        ensures kept { Keeps self.old self.new }
        ensures first { IsFirstOf (λ r. (self.old.first ≡ Some r) ⊎ Contains refusals.now r) self.new.first }
        ensures shared { self.new.shared ≡ self.old.shared }
        ensures next { self.new.next ≡ self.old.next }
    {
        self.first = noted(self.first, refusals);
    }

    /// No nodes.
    fn no_nodes(&self) -> Rooted
        ensures nodes { result.nodes.items ≡ [] }
        ensures spans { result.spans.items ≡ [] }
        ensures root { result.root ≡ 0 }
    {
        Rooted {
            nodes: Vec::new(self.alloc),
            spans: Vec::new(self.alloc),
            root: 0,
        }
    }

    /// The nodes of the form at a place, outside of which no name is bound.
    fn expand_root(&mut self, key: u32) -> Result<Rooted, Memory>
        ensures kept { (d : Datum) (defined : List Bound) → IsReady self.old defined → Held self.old.shared.names self.old.forms key d → OnOk result (Keeps self.old self.new) }
        ensures lengths { IfOk result (λ x. length x.spans.items ≡ length x.nodes.items) }
        ensures refused { (d : Datum) (defined : List Bound) → IsReady self.old defined → Held self.old.shared.names self.old.forms key d → OnOk result (IsFirstOf (λ r. (self.old.first ≡ Some r) ⊎ Refused (top_scope defined) d r) self.new.first) }
        ensures meant { (d : Datum) (defined : List Bound) → IsReady self.old defined → Held self.old.shared.names self.old.forms key d → IfOk result (λ x. self.new.first ≡ None → (later : SharedParts) → IsGrown self.new.shared later → RootMeans defined later (nodes_of x) d x.root) }
        ensures globals { OnOk result (self.new.shared.globals.items ≡ self.old.shared.globals.items) }
        ensures first { OnOk result (self.new.first ≡ None → self.old.first ≡ None) }
        ensures tallied { (forms : List SpecForm) → (self.old.first ≡ None → AreTallied forms self.old) → IfOk result (λ x. self.new.first ≡ None → RootTallied forms x self.new) }
    {
        let alloc = self.alloc;
        self.nodes = NodeList::new(alloc);
        let root = self.expand_form(key)?;
        let made = mem::replace(&mut self.nodes, NodeList::new(alloc));
        let (nodes, spans) = made.into_lists();
        Ok(Rooted { nodes, spans, root })
    }

    /// Of an operation without a default there are no nodes; its parameters are looked at all the same.
    fn without_default(&mut self, params: &[Binder]) -> Result<Rooted, Memory>
        ensures kept { OnOk result (Keeps self.old self.new) }
        ensures nodes { IfOk result (λ x. x.nodes.items ≡ []) }
        ensures spans { IfOk result (λ x. x.spans.items ≡ []) }
        ensures root { IfOk result (λ x. x.root ≡ 0) }
        ensures refused { (bs : List SpecBinder) (defined : List Bound) → IsReady self.old defined → AllZip (IsBinder self.old.shared.names) params.now bs → OnOk result (IsFirstOf (λ r. (self.old.first ≡ Some r) ⊎ Contains (twice bs) r) self.new.first) }
        ensures globals { OnOk result (self.new.shared.globals.items ≡ self.old.shared.globals.items) }
        ensures first { OnOk result (self.new.first ≡ None → self.old.first ≡ None) }
        ensures tallied { (forms : List SpecForm) → (self.old.first ≡ None → AreTallied forms self.old) → IfOk result (λ x. self.new.first ≡ None → RootTallied forms x self.new) }
    {
        let refusals = twice(self.alloc, params)?;
        self.note(refusals.as_slice());
        Ok(self.no_nodes())
    }

    /// The nodes of what a definition defines.
    fn expand_value(&mut self, definition: &Definition) -> Result<Rooted, Memory>
        ensures kept { (d : SpecDefinition) (defined : List Bound) → IsReady self.old defined → IsDefinition self.old.shared.names self.old.forms definition.now d → OnOk result (Keeps self.old self.new) }
        ensures lengths { IfOk result (λ x. length x.spans.items ≡ length x.nodes.items) }
        ensures refused { (d : SpecDefinition) (defined : List Bound) → IsReady self.old defined → IsDefinition self.old.shared.names self.old.forms definition.now d → OnOk result (IsFirstOf (λ r. (self.old.first ≡ Some r) ⊎ RefusedDefinition defined d r) self.new.first) }
        ensures meant { (d : SpecDefinition) (defined : List Bound) → IsReady self.old defined → IsDefinition self.old.shared.names self.old.forms definition.now d → IfOk result (λ x. self.new.first ≡ None → (later : SharedParts) → IsGrown self.new.shared later → ValueMeans defined later (nodes_of x) d x.root) }
        ensures globals { OnOk result (self.new.shared.globals.items ≡ self.old.shared.globals.items) }
        ensures first { OnOk result (self.new.first ≡ None → self.old.first ≡ None) }
        ensures tallied { (forms : List SpecForm) → (self.old.first ≡ None → AreTallied forms self.old) → IfOk result (λ x. self.new.first ≡ None → RootTallied forms x self.new) }
    {
        match definition {
            Definition::Define { value, .. } => self.expand_root(*value),
            Definition::Lset { value, .. } => self.expand_root(*value),
            Definition::Operation {
                params,
                default,
                ..
            } => match default {
                Some(value) => self.expand_root(*value),
                None => self.without_default(params.as_slice()),
            },
        }
    }

    /// What a definition is kept as. Where its name was defined otherwise before, which is refused, it doesn't matter.
    fn kind(&self, definition: &Definition) -> Result<FormKind, Memory>
        ensures { (cells : List Cell) (d : SpecDefinition) (defined : List Bound) → IsReady self.now defined → IsDefinition self.now.shared.names cells definition.now d → IfOk result (λ k. self.now.first ≡ None → IsKind k d (meaning_of defined d)) }
    {
        let name = defined_name(definition).name;
        let meant = self.scope.meaning(&self.shared.names, name);
        match kind_of(definition, meant) {
            Some(kind) => Ok(kind),
            None => {
                if self.first.is_some() {
                    Ok(FormKind::Plain)
                } else {
                    Err(Memory)
                }
            }
        }
    }

    /// Looks whether a name was defined before.
    fn look_for_twice(&mut self, marks: &mut NameMarks, name: Binder) -> Result<(), Memory>
        ensures kept { OnOk result (Keeps self.old self.new) }
        ensures refused { (before : List SpecTop) (defined : List Bound) (b : SpecBinder) → IsReady self.old defined → IsBinder self.old.shared.names name b → Marks self.old.shared.names marks.old (names_defined before) → OnOk result (IsFirstOf (λ r. (self.old.first ≡ Some r) ⊎ Contains (twice_defined before b) r) self.new.first) }
        ensures marked { (before : List SpecTop) (defined : List Bound) (b : SpecBinder) → IsReady self.old defined → IsBinder self.old.shared.names name b → Marks self.old.shared.names marks.old (names_defined before) → OnOk result (Marks self.old.shared.names marks.new (names_defined before ++ b.name ∷ [])) }
        ensures shared { OnOk result (self.new.shared ≡ self.old.shared) }
        ensures next { OnOk result (self.new.next ≡ self.old.next) }
        ensures first { OnOk result (self.new.first ≡ None → self.old.first ≡ None) }
    {
        if marks.mark(name.name)? {
            let refusal = Refusal {
                kind: SyntaxKind::Twice,
                span: name.at,
            };
            self.note(&[refusal]);
        }
        Ok(())
    }

    fn expand_defining(
        &mut self,
        marks: &mut NameMarks,
        definition: &Definition,
    ) -> Result<Expanded, Memory>
        ensures kept { (d : SpecDefinition) (defined : List Bound) → IsReady self.old defined → IsDefinition self.old.shared.names self.old.forms definition.now d → OnOk result (Keeps self.old self.new) }
        ensures refused { (before : List SpecTop) (d : SpecDefinition) (defined : List Bound) → IsReady self.old defined → IsDefinition self.old.shared.names self.old.forms definition.now d → Marks self.old.shared.names marks.old (names_defined before) → OnOk result (IsFirstOf (λ r. (self.old.first ≡ Some r) ⊎ RefusedTop defined before (defining d) r) self.new.first) }
        ensures marked { (before : List SpecTop) (d : SpecDefinition) (defined : List Bound) → IsReady self.old defined → IsDefinition self.old.shared.names self.old.forms definition.now d → Marks self.old.shared.names marks.old (names_defined before) → OnOk result (Marks self.old.shared.names marks.new (names_defined (before ++ defining d ∷ []))) }
        ensures meant { (d : SpecDefinition) (defined : List Bound) → IsReady self.old defined → IsDefinition self.old.shared.names self.old.forms definition.now d → IfOk result (λ x. self.new.first ≡ None → (later : SharedParts) → IsGrown self.new.shared later → FormMeans defined later x.form x.spans (defining d)) }
        ensures globals { IfOk result (λ x. self.new.shared.globals.items ≡ settled self.old.shared.globals.items x.form.kind x.form.nodes.items x.form.root) }
        ensures tallied { (forms : List SpecForm) → (self.old.first ≡ None → AreTallied forms self.old) → IfOk result (λ x. self.new.first ≡ None → AreTallied (forms ++ x.form ∷ []) self.new) }
    {
        self.look_for_twice(marks, defined_name(definition))?;
        let rooted = self.expand_value(definition)?;
        let kind = self.kind(definition)?;
        settle(&mut self.shared.globals, kind, &rooted);
        Ok(finished(kind, rooted))
    }

    fn expand_broken(&mut self, span: Span) -> Expanded
        ensures kept { Keeps self.old self.new }
        ensures refused { IsFirstOf (λ r. (self.old.first ≡ Some r) ⊎ (r ≡ refusal SyntaxKind.BadForm span)) self.new.first }
        ensures globals { self.new.shared.globals.items ≡ settled self.old.shared.globals.items result.form.kind result.form.nodes.items result.form.root }
        ensures tallied { (forms : List SpecForm) → (self.old.first ≡ None → AreTallied forms self.old) → self.new.first ≡ None → AreTallied (forms ++ result.form ∷ []) self.new }
    {
        let refusal = Refusal {
            kind: SyntaxKind::BadForm,
            span,
        };
        self.note(&[refusal]);
        finished(FormKind::Plain, self.no_nodes())
    }

    /// The form of the core that a form at top level stands for, where nothing was refused so far. Else what is refused is noted. The
    /// only error is the want of memory, which would stand for what can't arise on a text too.
    pub fn expand_top(&mut self, marks: &mut NameMarks, top: &Top) -> Result<Expanded, Memory>
        ensures kept { (t : SpecTop) (defined : List Bound) → IsReady self.old defined → IsTop self.old.shared.names self.old.forms top.now t → OnOk result (Keeps self.old self.new) }
        ensures refused { (before : List SpecTop) (t : SpecTop) (defined : List Bound) → IsReady self.old defined → IsTop self.old.shared.names self.old.forms top.now t → Marks self.old.shared.names marks.old (names_defined before) → OnOk result (IsFirstOf (λ r. (self.old.first ≡ Some r) ⊎ RefusedTop defined before t r) self.new.first) }
        ensures marked { (before : List SpecTop) (t : SpecTop) (defined : List Bound) → IsReady self.old defined → IsTop self.old.shared.names self.old.forms top.now t → Marks self.old.shared.names marks.old (names_defined before) → OnOk result (Marks self.old.shared.names marks.new (names_defined (before ++ t ∷ []))) }
        ensures meant { (t : SpecTop) (defined : List Bound) → IsReady self.old defined → IsTop self.old.shared.names self.old.forms top.now t → IfOk result (λ x. self.new.first ≡ None → (later : SharedParts) → IsGrown self.new.shared later → FormMeans defined later x.form x.spans t) }
        ensures globals { IfOk result (λ x. self.new.shared.globals.items ≡ settled self.old.shared.globals.items x.form.kind x.form.nodes.items x.form.root) }
        ensures tallied { (forms : List SpecForm) → (self.old.first ≡ None → AreTallied forms self.old) → IfOk result (λ x. self.new.first ≡ None → AreTallied (forms ++ x.form ∷ []) self.new) }
    {
        match top {
            Top::Defining(definition) => self.expand_defining(marks, definition),
            Top::Broken(span) => Ok(self.expand_broken(*span)),
            Top::Expression(key) => {
                let rooted = self.expand_root(*key)?;
                Ok(finished(FormKind::Plain, rooted))
            }
        }
    }
}
