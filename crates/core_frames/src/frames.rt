// The nodes under way: each is in a part of the one around it, which waits for that part.
ghost use Rattle.std.specs.Prelude.{◌≡◌, ◌++◌, ◌∷◌, [], List, OnErr, OnOk, drop, reverse, option_map, slice_get};
ghost use Rattle.core_frames.specs.Frames.{Frame, opened, waiting, is_last, NoneLeft, IsTaken};

use crate::build::{Done, Fresh, NO_VARS};
use std::alloc::Global;
use std::marker::Model;
use t_base::{Memory, Span};
use t_rows::{Part, Shape};

/// What is known of a node under way, beside its parts.
#[derive(Drop)]
pub struct NodeState {
    /// The shape that the node will have.
    pub shape: Shape,
    /// The span of the form that it stands for.
    pub span: Span,
    /// Whether the node stands in a tail place.
    pub tail: bool,
    /// The variables around the part that it waits for, or around the last part that is done; none before the first part.
    pub bound: Fresh,
    /// Whether the part that it waits for stands in a tail place.
    pub part_tail: bool,
}

/// A node under way, with how many of its parts are left, and how many are done.
#[derive(Drop)]
pub struct CountedNode {
    state: NodeState,
    left_count: usize,
    done_count: usize,
}

/// The nodes under way. Contracts see their list, the innermost first: each with the parts that are left and those that are done. All
/// parts that are left stand on one stack, the next one of the innermost node last, and all that are done on another.
#[derive(Drop)]
pub struct FrameStack {
    counted: Vec<CountedNode>,
    left: Vec<Part>,
    done: Vec<Done>,
}

impl Model for FrameStack {
    ghost use Rattle.std.specs.Prelude.{List, reverse};
    ghost use Rattle.core_frames.specs.Frames.{Frame, frames};

    ghost Value = { List Frame };

    ghost view = { λ f. frames (reverse f.counted.items) (reverse f.left.items) f.done.items };
}

/// Puts parts on a stack, the first one last.
fn stack_parts(left: &mut Vec<Part>, parts: Vec<Part>) -> Result<(), Memory>
    ensures { OnOk result (reverse left.new.items ≡ parts.items ++ reverse left.old.items) }
{
    let mut parts = parts;
    'parts: while let Some(part) = parts.pop() {
        left.push(part)?;
    }
    Ok(())
}

impl FrameStack {
    /// No nodes. It takes no memory.
    pub fn new(alloc: Global) -> FrameStack
        ensures { result ≡ [] }
    {
        FrameStack {
            counted: Vec::new(alloc),
            left: Vec::new(alloc),
            done: Vec::new(alloc),
        }
    }

    /// One more node, the innermost, of which no part is done. The only error is the want of memory, after which nothing is said of the
    /// nodes.
    pub fn add(
        &mut self,
        shape: Shape,
        span: Span,
        tail: bool,
        parts: Vec<Part>,
    ) -> Result<(), Memory>
        ensures { OnOk result (self.new ≡ opened shape span tail parts.items ∷ self.old) }
    {
        let left = parts.len();
        stack_parts(&mut self.left, parts)?;
        self.counted.push(CountedNode {
            state: NodeState {
                shape,
                span,
                tail,
                bound: NO_VARS,
                part_tail: false,
            },
            left_count: left,
            done_count: 0,
        })?;
        Ok(())
    }

    /// What is known of the innermost node, where there is one. It takes no memory.
    pub fn innermost(&self) -> Option<&NodeState>
        ensures { option_map (λ h. h.now) result ≡ option_map (λ f. f.state) (slice_get self.now 0) }
    {
        match self.counted.last() {
            None => None,
            Some(counted) => Some(&counted.state),
        }
    }

    /// Whether no part of the innermost node is left, as where there is no node. It takes no memory.
    pub fn is_last(&self) -> bool
        ensures { result ≡ is_last self.now }
    {
        match self.counted.last() {
            None => true,
            Some(counted) => counted.left_count == 0 || self.left.is_empty(),
        }
    }

    /// The parts of the innermost node that are done. It takes no memory.
    pub fn done(&self) -> &[Done]
        ensures { (f : Frame) (others : List Frame) → self.now ≡ f ∷ others → result.now ≡ f.done }
    {
        let count = match self.counted.last() {
            None => 0,
            Some(counted) => counted.done_count,
        };
        let from = self.done.len().saturating_sub(count);
        &self.done[from..]
    }

    /// Takes the next part of the innermost node away, where one is left. It takes no memory.
    pub fn take_part(&mut self) -> Option<Part>
        ensures { IsTaken self.old self.new result }
    {
        let count = self.counted.len();
        if count == 0 {
            return None;
        }
        if self.counted[count - 1].left_count == 0 {
            return None;
        }
        match self.left.pop() {
            None => None,
            Some(part) => {
                self.counted[count - 1].left_count -= 1;
                Some(part)
            }
        }
    }

    /// Notes the variables around the part that the innermost node, if there is one, waits for, and whether the part stands in a tail place.
    /// It takes no memory.
    pub fn set_waiting(&mut self, bound: Fresh, part_tail: bool)
        ensures { (f : Frame) (others : List Frame) → self.old ≡ f ∷ others → self.new ≡ waiting f bound part_tail ∷ others }
    {
        let count = self.counted.len();
        if count > 0 {
            self.counted[count - 1].state.bound = bound;
            self.counted[count - 1].state.part_tail = part_tail;
        }
    }

    /// One more part of the innermost node is done. The only error is the want of memory, as where there is no node, or 2^64 parts of it; then
    /// the nodes are as before.
    pub fn add_done(&mut self, done: Done) -> Result<(), Memory>
        ensures added { (f : Frame) (others : List Frame) → self.old ≡ f ∷ others → OnOk result (self.new ≡ record f { done = f.done ++ done ∷ [] } ∷ others) }
        ensures failed { OnErr result (self.new ≡ self.old) }
    {
        let count = self.counted.len();
        if count == 0 {
            return Err(Memory);
        }
        let Some(more) = self.counted[count - 1].done_count.checked_add(1) else {
            return Err(Memory);
        };
        self.done.push(done)?;
        self.counted[count - 1].done_count = more;
        Ok(())
    }

    /// Ends the innermost node, if there is one; none of its parts is left. It takes no memory.
    pub fn pop(&mut self)
        requires { NoneLeft self.old }
        ensures { self.new ≡ drop 1 self.old }
    {
        if let Some(counted) = self.counted.pop() {
            let rest = self.done.len().saturating_sub(counted.done_count);
            self.done.truncate(rest);
        }
    }
}
