// The things that stand in static words.
ghost use Rattle.std.specs.Prelude.{◌≡◌, ℕ, ◌≤◌, ◌^◌, [], ◌∷◌, map, IfOk, OnOk};
ghost use Rattle.operand_drafts.specs.Places.{word_at};
ghost use Rattle.static_names.specs.Named.{fixed_of};
ghost use Rattle.static_tables.specs.Tables.{index_of, AreStatics, IsAppended, Adds};

use crate::sizes::{front_words, words_of};
use crate::tables::{index_of, put, tag_for, word_at};
use frame_ir::Frames;
use static_names::Thing;
use std::alloc::Global;
use t_base::Memory;

/// Where static words begin.
const START: u32 = 0x2000_0000;

/// The most static words of a program.
const MOST: u32 = 0x200_0000;

/// What stands in static words: distinct things, in order, a table of their words by kind and number, and how many words there are, with those in front of
/// all things.
#[derive(Drop)]
pub struct Statics {
    pub things: Vec<Thing>,
    pub table: Vec<u32>,
    pub words: u32,
}

impl Statics {
    /// No things. The only error is the want of memory.
    pub(crate) fn new(alloc: Global, frames: &Frames) -> Result<Statics, Memory>
        ensures statics { IfOk result (AreStatics frames.now) }
        ensures none { IfOk result (λ statics. statics.things.items ≡ []) }
    {
        let words = front_words(frames)?;
        if words > MOST {
            return Err(Memory);
        }
        Ok(Statics {
            things: Vec::new(alloc),
            table: Vec::new(alloc),
            words,
        })
    }

    /// The word of a thing, 0 where it doesn't stand there; of a template the address.
    pub fn word(&self, thing: Thing) -> u32
        ensures { result ≡ word_at self.now.table.items (index_of (fixed_of thing)) }
    {
        word_at(self.table.as_slice(), index_of(thing))
    }

    /// A thing behind all.
    fn append(&mut self, thing: Thing, words: u32) -> Result<(), Memory>
        requires { self.old.words ≤ 2 ^ 25 }
        ensures { OnOk result (IsAppended thing words self.old self.new) }
    {
        let Some(end) = self.words.checked_add(words) else {
            return Err(Memory);
        };
        if end > MOST {
            return Err(Memory);
        }
        let word = START + 4 * self.words + tag_for(thing);
        put(&mut self.table, index_of(thing), word)?;
        self.things.push(thing)?;
        self.words = end;
        Ok(())
    }

    /// A thing behind all, unless it is there. The only error is the want of memory, which stands also for more than 2^25 words.
    pub(crate) fn add(&mut self, frames: &Frames, thing: Thing) -> Result<(), Memory>
        requires { AreStatics frames.now self.old }
        ensures { OnOk result (Adds frames.now (fixed_of thing ∷ []) self.old self.new) }
    {
        if self.word(thing) != 0 {
            return Ok(());
        }
        let words = words_of(frames, thing)?;
        self.append(thing, words)?;
        Ok(())
    }

    /// Things behind all, but for those that are there. The only error is the want of memory.
    pub(crate) fn add_all(&mut self, frames: &Frames, things: &[Thing]) -> Result<(), Memory>
        requires { AreStatics frames.now self.old }
        ensures { OnOk result (Adds frames.now (map fixed_of things.now) self.old self.new) }
    {
        for thing in things {
            self.add(frames, *thing)?;
        }
        Ok(())
    }
}
