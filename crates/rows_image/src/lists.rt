//! Which lists of items the tests assemble.

ghost use Rattle.std.specs.Prelude.{◌≡◌, ◌≤◌, ◌^◌, true, length};
ghost use Rattle.rows_image.specs.Lists.{IsListed};

use m68020_asm::{Code, Item, assemble};
use m68020_code::Instr;
use std::alloc::Global;

/// Instructions that do nothing, labels numbered in order up to this count, and what names these.
fn is_listed(items: &[Item], count: u32) -> bool
    requires { length items.now ≤ 2 ^ 20 }
    ensures { result ≡ true → IsListed 0 count items.now }
{
    let mut next = 0;
    for item in items {
        match item {
            Item::Plain(i) => {
                if *i != Instr::Nop {
                    return false;
                }
            }
            Item::Label(n) => {
                if *n != next {
                    return false;
                }
                next += 1;
            }
            Item::Branch(_, n) => {
                if *n >= count {
                    return false;
                }
            }
            Item::CodeAddr { reg, label } => {
                if *label >= count || *reg >= 8 {
                    return false;
                }
            }
        }
    }
    next == count
}

/// The code of such a list with so many labels; none of another list, or where memory runs out.
pub fn code_of(alloc: Global, items: &[Item], labels: u32) -> Option<Code> {
    if items.len() > 1 << 20 || !is_listed(items, labels) {
        return None;
    }
    assemble(alloc, items).ok()
}
