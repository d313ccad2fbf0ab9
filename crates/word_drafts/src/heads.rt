//! Blocks that have their numbers before they are begun.

ghost use Rattle.std.specs.Prelude.{IfOk};
ghost use Rattle.word_drafts.specs.Drafts.{IsProper, Begins, Finishes};

use crate::drafts::empty_block;
use crate::Draft;
use std::alloc::Global;
use t_base::{Memory, Vars};
use word_ir::WordBlock;

impl Draft {
    /// A program whose first blocks, so many, have their numbers, and none of which is begun. The only error is the want of memory.
    pub fn new(alloc: Global, heads: u32) -> Result<Draft, Memory>
        ensures { IfOk result IsProper }
    {
        let mut blocks = Vec::new(alloc);
        for _ in 0..heads {
            blocks.push(empty_block(alloc))?;
        }
        blocks.push(empty_block(alloc))?;
        let count = blocks.len();
        if count <= heads as usize {
            return Err(Memory);
        }
        let params = Vars::from_vec(Vec::new(alloc));
        let ops = Vec::new(alloc);
        let draft = Draft {
            blocks,
            heads,
            begun: 0,
            number: heads,
            params,
            ops,
        };
        Ok(draft)
    }

    /// Begins the next one of the first blocks behind a block that has ended, and gives its number. The only error is the want of memory, which comes too where
    /// all are begun or the block under way isn't empty.
    pub fn begin(&mut self, params: Vars) -> Result<u32, Memory>
        requires { IsProper self.old }
        ensures { IfOk result (λ place. Begins place params self.old self.new) }
    {
        let place = self.begun;
        if place >= self.heads {
            return Err(Memory);
        }
        if self.number < self.heads {
            return Err(Memory);
        }
        let ops = self.ops.len();
        if ops != 0 {
            return Err(Memory);
        }
        self.number = place;
        self.begun = place + 1;
        self.params = params;
        Ok(place)
    }

    /// The blocks, where all have ended. The only error is the want of memory, which comes too where the block under way isn't empty.
    pub fn finish(self) -> Result<Vec<WordBlock>, Memory>
        ensures { IfOk result (λ blocks. Finishes blocks.items self) }
    {
        if self.number < self.heads {
            return Err(Memory);
        }
        let ops = self.ops.len();
        if ops != 0 {
            return Err(Memory);
        }
        Ok(self.blocks)
    }
}
