// A set of numbers with its members at hand.
ghost use Rattle.std.specs.Prelude.{◌≡◌, ◌≢◌, ℕ, ◌<◌, ◌==◌, ◌||◌, ◌&&◌, not, [], length, AllPairs, OnOk, IfOk};
ghost use Rattle.cps_ir.specs.Reaches.{is_in};
ghost use Rattle.cps_walk.specs.Marked.{is_marked};
ghost use Rattle.cps_live.specs.Gathered.{numbers};

use cps_walk::is_marked;
use std::alloc::Global;
use std::marker::Model;
use t_base::{Memory, Var, Vars};

/// A set of numbers, each of which is there once. Contracts see the list of its numbers, the first one first. Asking and adding take
/// constant time, but for the room that marks need at first, and emptying is linear in the numbers that are there.
#[derive(Drop)]
pub(crate) struct NumberSet {
    items: Vec<u32>,
    /// A mark for each number up to the greatest that ever was there: whether it is there.
    marks: Vec<bool>,
}

impl Model for NumberSet {
    ghost use Rattle.std.specs.Prelude.{List, ℕ};
    ghost use Rattle.cps_live.specs.Gathered.{AreMarked};

    ghost Value = { List ℕ };

    ghost view = { λ s. s.items.items };

    ghost invariant = { λ s. AreMarked s.marks.items s.items.items };
}

/// Adds marks until there is one of this number.
fn make_room(marks: &mut Vec<bool>, n: u32) -> Result<(), Memory>
    ensures kept { (m : ℕ) → is_marked marks.new.items m ≡ is_marked marks.old.items m }
    ensures room { OnOk result (n < length marks.new.items) }
{
    'room: while marks.len() <= n as usize {
        marks.push(false)?;
    }
    Ok(())
}

/// Marks a number, for which there is room.
fn mark(marks: &mut Vec<bool>, n: u32)
    ensures { n < length marks.old.items → (m : ℕ) → is_marked marks.new.items m ≡ (is_marked marks.old.items m || n == m) }
{
    if (n as usize) < marks.len() {
        marks[n as usize] = true;
    }
}

/// Takes the mark of a number away.
#[tactic(auto, using(crate::proofs::MarkLemmas::marked_cleared, crate::proofs::MarkLemmas::marked_past))]
fn unmark(marks: &mut Vec<bool>, n: u32)
    ensures { (m : ℕ) → is_marked marks.new.items m ≡ (is_marked marks.old.items m && not (n == m)) }
{
    if (n as usize) < marks.len() {
        marks[n as usize] = false;
    }
}

fn unmark_all(marks: &mut Vec<bool>, numbers: &[u32])
    ensures { (m : ℕ) → is_marked marks.new.items m ≡ (is_marked marks.old.items m && not (is_in numbers.now m)) }
{
    for n in numbers {
        unmark(marks, *n);
    }
}

impl NumberSet {
    /// No numbers. It takes no memory.
    pub(crate) fn new(alloc: Global) -> NumberSet
        ensures { result ≡ [] }
    {
        NumberSet {
            items: Vec::new(alloc),
            marks: Vec::new(alloc),
        }
    }

    /// The set of these numbers.
    pub(crate) fn of(alloc: Global, numbers: &[u32]) -> Result<NumberSet, Memory>
        ensures { IfOk result (λ set. (m : ℕ) → is_in set m ≡ is_in numbers.now m) }
    {
        let mut set = NumberSet::new(alloc);
        for n in numbers {
            set.insert(*n)?;
        }
        Ok(set)
    }

    /// Whether a number is there. It takes no memory.
    pub(crate) fn contains(&self, n: u32) -> bool
        ensures { result ≡ is_in self.now n }
    {
        is_marked(&self.marks, n)
    }

    /// Adds a number, where it isn't there yet.
    pub(crate) fn insert(&mut self, n: u32) -> Result<(), Memory>
        ensures { OnOk result ((m : ℕ) → is_in self.new m ≡ (is_in self.old m || n == m)) }
    {
        if self.contains(n) {
            return Ok(());
        }
        make_room(&mut self.marks, n)?;
        self.items.push(n)?;
        mark(&mut self.marks, n);
        Ok(())
    }

    /// Adds the numbers of variables.
    pub(crate) fn insert_all(&mut self, vars: &[Var]) -> Result<(), Memory>
        ensures { OnOk result ((m : ℕ) → is_in self.new m ≡ (is_in self.old m || is_in (numbers vars.now) m)) }
    {
        for x in vars {
            self.insert(x.0)?;
        }
        Ok(())
    }

    /// The numbers as variables.
    pub(crate) fn to_vars(&self, alloc: Global) -> Result<Vars, Memory>
        ensures same { IfOk result (λ xs. numbers xs ≡ self.now) }
        ensures once { IfOk result (λ xs. AllPairs (λ x y. x ≢ y) (numbers xs)) }
    {
        let mut vars = Vec::new(alloc);
        for n in &self.items {
            vars.push(Var(*n))?;
        }
        Ok(Vars::from_vec(vars))
    }

    /// Takes all numbers away. It takes no memory.
    pub(crate) fn clear(&mut self)
        ensures { self.new ≡ [] }
    {
        unmark_all(&mut self.marks, &self.items);
        self.items.clear();
    }
}
