//! How many bytes each item has.

ghost use Rattle.std.specs.Prelude.{◌≡◌, ℕ, ◌≤◌, List, length, map, slice_get, Some, IsTrue, IfOk};
ghost use Rattle.m68020_code.specs.declared.instr.Width.TheVariants.{Byte};
ghost use Rattle.m68020_code.specs.Table.{is_row, spelling};
ghost use Rattle.m68020_asm.specs.declared.item.Item.{Item as AnItem};
ghost use Rattle.m68020_asm.specs.Items.{branch_size, size_of, IsItem};

use crate::item::Item;
use m68020_code::{Instr, Width, encode};
use std::alloc::Global;
use t_base::Memory;

/// How many bytes a branch of the width has: 2, 4 or 6.
pub fn branch_size(width: Width) -> u8
    ensures { result ≡ branch_size width }
{
    match width {
        Width::Byte => 2,
        Width::Word => 4,
        Width::Long => 6,
    }
}

fn plain_size(i: &Instr) -> u8
    requires { IsTrue (is_row i.now) }
    ensures size { result ≡ length (spelling i.now) }
    ensures small { result ≤ 10 }
{
    let mut bytes = [0; 10];
    match encode(i, &mut bytes) {
        Some(size) => size as u8,
        None => unreachable!(),
    }
}

/// The bytes of an item, whose branch has the smallest width.
fn least_size(item: &Item) -> u8
    requires { IsItem item.now }
    ensures { result ≡ size_of item.now Byte }
{
    match item {
        Item::Plain(i) => plain_size(i),
        Item::Label(_) => 0,
        Item::Branch(_, _) => branch_size(Width::Byte),
        Item::CodeAddr { .. } => 6,
    }
}

/// The size of each item, while all branches have the smallest width.
pub fn least_sizes(alloc: Global, items: &[Item]) -> Result<Vec<u8>, Memory>
    requires { (k : ℕ) (i : AnItem) → slice_get items.now k ≡ Some i → IsItem i }
    ensures { IfOk result (λ sizes. sizes.items ≡ map (λ i. size_of i Byte) items.now) }
{
    let mut sizes = Vec::new(alloc);
    for item in items {
        sizes.push(least_size(item))?;
    }
    Ok(sizes)
}
