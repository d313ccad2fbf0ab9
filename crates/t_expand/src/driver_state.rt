// What the expansion of a unit's forms reads and makes.
ghost use Rattle.std.specs.Prelude.{◌≡◌, ◌++◌, ◌∷◌, [], length, IfOk, OnOk};

use std::alloc::Global;
use std::marker::Model;
use t_base::{Memory, Shared, Span};
use t_core::Core;
use t_forms::{Forms, Scope};
use t_rows::Refusal;

/// The nodes of a form with the spans of the data that they stand for, as many. Contracts see both lists.
#[derive(Drop)]
pub struct NodeList {
    nodes: Vec<Core>,
    spans: Vec<Span>,
}

impl Model for NodeList {
    ghost use Rattle.std.specs.Prelude.{◌≡◌, length};
    ghost use Rattle.expansion.specs.Meaning.{Nodes};

    ghost Value = { Nodes };

    ghost view = { λ n. record { nodes = n.nodes.items; spans = n.spans.items } };

    ghost invariant = { λ n. length n.spans.items ≡ length n.nodes.items };
}

impl NodeList {
    /// No nodes. It takes no memory.
    pub fn new(alloc: Global) -> NodeList
        ensures nodes { result.nodes ≡ [] }
        ensures spans { result.spans ≡ [] }
    {
        NodeList {
            nodes: Vec::new(alloc),
            spans: Vec::new(alloc),
        }
    }

    /// Puts a node last and gives its place. The only error is the want of memory, also for a node past 2^32 - 1.
    pub fn add(&mut self, node: Core, span: Span) -> Result<u32, Memory>
        ensures place { IfOk result (λ key. key ≡ length self.old.nodes) }
        ensures span_place { IfOk result (λ key. key ≡ length self.old.spans) }
        ensures nodes { OnOk result (self.new.nodes ≡ self.old.nodes ++ node ∷ []) }
        ensures spans { OnOk result (self.new.spans ≡ self.old.spans ++ span ∷ []) }
    {
        let key = self.nodes.len();
        if key >= u32::MAX as usize {
            return Err(Memory);
        }
        self.spans.push(span)?;
        match self.nodes.push(node) {
            Ok(()) => Ok(key as u32),
            Err(_) => {
                self.spans.pop();
                Err(Memory)
            }
        }
    }

    /// The nodes and their spans.
    pub fn into_lists(self) -> (Vec<Core>, Vec<Span>)
        ensures nodes { result.0.items ≡ self.nodes }
        ensures spans { result.1.items ≡ self.spans }
        ensures lengths { length result.1.items ≡ length result.0.items }
    {
        let NodeList { nodes, spans } = self;
        (nodes, spans)
    }
}

/// The state of an expansion: the forms and the names around the one under way, the parts of the unit, the nodes of the form at top
/// level that is under way, the number of the next new variable, and the first refusal so far.
#[derive(Drop)]
pub struct Expansion {
    pub alloc: Global,
    pub forms: Forms,
    pub scope: Scope,
    pub shared: Shared,
    pub nodes: NodeList,
    pub next: u32,
    pub first: Option<Refusal>,
}
