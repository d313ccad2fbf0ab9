// Forms as cells: the data of a text, and what the rows of the table of forms make of them.
ghost use Rattle.std.specs.Prelude.{◌≡◌, ◌++◌, ◌∷◌, [], length, slice_get, option_map, OnOk, OnErr, IfOk};
ghost use Rattle.t_forms.specs.Held.{cell, Extends};

use crate::item_count::ItemCount;
use std::alloc::Global;
use std::marker::Model;
use t_base::{Bytes, Memory, Name, Prim, Span};
use t_objects::Word;

/// A new variable that a row makes. Where a row puts a datum of the text, none of these stands in it, and no row puts the use of
/// one into the scope of another of the same kind: so each use means the variable that its own row made.
#[derive(Clone, Copy, PartialEq, Eq, Debug)]
pub enum New {
    /// The value of OR's or COND's first part.
    Answer,
    /// The datum that CASE compares.
    Chosen,
    /// The procedure of DO.
    Turn,
    /// The procedure of ITERATE, at its first call.
    Start,
    /// The object of LOCATIVE's methods.
    Own,
    /// The new content in a LOCATIVE's second method.
    Content,
    /// The parts of the call that a LOCATIVE names: its operator is 0, the operands are 1, 2 ..
    Part(u32),
}

/// The bytes of a string, kept apart, so that a form is small. Contracts see the list of the bytes.
#[derive(Drop)]
pub struct Text {
    bytes: Box<Bytes>,
}

impl Model for Text {
    ghost use Rattle.std.specs.Prelude.{List, ℕ};

    ghost Value = { List ℕ };

    ghost view = { λ t. t.bytes.value };
}

impl Text {
    /// The same bytes. The only error is the want of memory.
    pub fn copy(alloc: Global, bytes: &Bytes) -> Result<Text, Memory>
        ensures { IfOk result (λ text. text ≡ bytes.now) }
    {
        let copy = bytes.copy(alloc)?;
        let bytes = Box::new(alloc, copy)?;
        Ok(Text { bytes })
    }

    /// The bytes. It takes no memory.
    pub fn bytes(&self) -> &Bytes
        ensures { result.now ≡ self.now }
    {
        &self.bytes
    }
}

/// What a cell is. A symbol that is a reserved word is a `Word`.
#[derive(Drop)]
pub enum Form {
    /// A fixnum.
    Fix(i32),
    /// A character by its code.
    Char(u8),
    /// The empty list.
    Nil,
    /// The true value.
    True,
    /// A string.
    Str(Text),
    /// A symbol that is no reserved word, by its place among the names.
    Sym(Name),
    /// A reserved word.
    Word(Word),
    /// A new variable.
    Variable(New),
    /// A builtin, whatever its name means in the unit.
    Builtin(Prim),
    /// A builtin operation by its place: 0 `setter`, 1 `contents`, 2 `set-contents`.
    Operation(u32),
    /// The operator LIST.
    Listing,
    /// A pair of cells that stand before it. `count` is how many items it has as a list; a dotted list has none.
    Pair {
        head: u32,
        tail: u32,
        count: ItemCount,
    },
}

/// A form with its span. What a row makes has the span of the datum to which the row was applied.
#[derive(Drop)]
pub struct Cell {
    pub span: Span,
    pub form: Form,
}

/// Forms as cells, which only grow. Contracts see the list of the cells. It keeps its allocator.
#[derive(Drop)]
pub struct Forms {
    cells: Vec<Cell>,
    alloc: Global,
}

impl Model for Forms {
    ghost use Rattle.std.specs.Prelude.{List};
    ghost use Rattle.t_forms.specs.declared.arena.Cell.{Cell};

    ghost Value = { List Cell };

    ghost view = { λ f. f.cells.items };
}

impl Forms {
    /// No forms. It takes no memory.
    pub fn new(alloc: Global) -> Forms
        ensures { result ≡ [] }
    {
        Forms {
            cells: Vec::new(alloc),
            alloc,
        }
    }

    /// Its allocator.
    pub fn alloc(&self) -> Global {
        self.alloc
    }

    /// How many cells there are. It takes no memory.
    pub fn count(&self) -> usize
        ensures { result ≡ length self.now }
    {
        self.cells.len()
    }

    /// The cell at a place. None comes exactly where there is none. It takes no memory.
    pub fn get(&self, key: u32) -> Option<&Cell>
        ensures { option_map (λ c. c.now) result ≡ slice_get self.now key }
    {
        self.cells.get(key as usize)
    }

    /// Puts a cell last and gives its place. The only error is the want of memory, also for a cell past 2^32 - 1.
    pub fn add(&mut self, span: Span, form: Form) -> Result<u32, Memory>
        ensures place { IfOk result (λ key. key ≡ length self.old) }
        ensures cells { OnOk result (self.new ≡ self.old ++ cell span form ∷ []) }
        ensures err { OnErr result (self.new ≡ self.old) }
        ensures grown { Extends self.old self.new }
    {
        let key = self.cells.len();
        if key >= u32::MAX as usize {
            return Err(Memory);
        }
        self.cells.push(Cell { span, form })?;
        Ok(key as u32)
    }
}
