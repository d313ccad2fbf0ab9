//! Branches at the edges of their widths, and where labels stand.

use crate::lists::code_of;
use m68020_asm::Item;
use m68020_code::{Cond, Instr};
use std::alloc::Global;
use std::test::Fail;
use t_base::Memory;

fn nops(items: &mut Vec<Item>, count: usize) -> Result<(), Memory> {
    for _ in 0..count {
        items.push(Item::Plain(Instr::Nop))?;
    }
    Ok(())
}

/// A branch over so many instructions of two bytes, or back over them.
fn over(alloc: Global, back: bool, count: usize) -> Result<Vec<Item>, Memory> {
    let mut items = Vec::new(alloc);
    if back {
        items.push(Item::Label(0))?;
    } else {
        items.push(Item::Branch(Cond::Bra, 0))?;
    }
    nops(&mut items, count)?;
    if back {
        items.push(Item::Branch(Cond::Bra, 0))?;
    } else {
        items.push(Item::Label(0))?;
    }
    Ok(items)
}

/// Branches, each of which leads over the next one and stands so that its width is at its edge, and at their end one that has to
/// be wide.
fn chain(alloc: Global, links: u32) -> Result<Vec<Item>, Memory> {
    let mut items = Vec::new(alloc);
    for link in 0..links {
        items.push(Item::Branch(Cond::Ne, link))?;
        if link != 0 {
            items.push(Item::Label(link - 1))?;
        }
        nops(&mut items, 62)?;
    }
    nops(&mut items, 2)?;
    if links != 0 {
        items.push(Item::Label(links - 1))?;
    }
    Ok(items)
}

type Edge = (bool, usize, &'static [u8]);

/// Back or not, over how many instructions of two bytes, and the bytes of the branch.
static EDGES: [Edge; 10] = [
    (false, 0, b"\x60\x00\x00\x02"),
    (false, 63, b"\x60\x7e"),
    (false, 64, b"\x60\x00\x00\x82"),
    (false, 16382, b"\x60\x00\x7f\xfe"),
    (false, 16383, b"\x60\xff\x00\x00\x80\x02"),
    (true, 0, b"\x60\xfe"),
    (true, 63, b"\x60\x80"),
    (true, 64, b"\x60\x00\xff\x7e"),
    (true, 16383, b"\x60\x00\x80\x00"),
    (true, 16384, b"\x60\xff\xff\xff\x7f\xfe"),
];

#[test]
fn a_branch_has_the_smallest_width(rt: HostRuntime) -> Result<(), Fail> {
    for (back, count, branch) in &EDGES {
        let items = over(rt.alloc(), *back, *count)?;
        let Some(code) = code_of(rt.alloc(), &items, 1) else {
            return Err(Fail::from("no code"));
        };
        let found = if *back {
            code.bytes.as_slice().ends_with(branch)
        } else {
            code.bytes.as_slice().starts_with(branch)
        };
        assert!(rt; found);
        assert_eq!(rt; code.bytes.len(), 2 * *count + branch.len());
    }
    Ok(())
}

#[test]
fn one_wide_branch_makes_the_next_wide(rt: HostRuntime) -> Result<(), Fail> {
    let items = chain(rt.alloc(), 1000)?;
    let Some(code) = code_of(rt.alloc(), &items, 1000) else {
        return Err(Fail::from("no code"));
    };
    assert_eq!(rt; code.bytes.len(), 1000 * 128 + 4);
    assert!(rt; code.bytes.as_slice().starts_with(b"\x66\x00\x00\x82"));
    Ok(())
}

#[test]
fn labels_may_share_a_place(rt: HostRuntime) -> Result<(), Fail> {
    let items = [
        Item::Label(0),
        Item::Label(1),
        Item::CodeAddr { reg: 3, label: 1 },
        Item::Branch(Cond::Eq, 3),
        Item::Plain(Instr::Nop),
        Item::Label(2),
        Item::Label(3),
    ];
    let Some(code) = code_of(rt.alloc(), &items, 4) else {
        return Err(Fail::from("no code"));
    };
    assert_eq!(rt;
        code.bytes.as_slice(),
        b"\x47\xf9\x00\x01\x00\x00\x67\x02\x4e\x71".as_slice()
    );
    assert_eq!(rt;
        code.labels.as_slice(),
        [65536, 65536, 65546, 65546].as_slice()
    );
    Ok(())
}

#[test]
fn no_items_have_no_code(rt: HostRuntime) -> Result<(), Fail> {
    let Some(code) = code_of(rt.alloc(), &[], 0) else {
        return Err(Fail::from("no code"));
    };
    assert_eq!(rt; code.bytes.len(), 0);
    assert_eq!(rt; code.labels.len(), 0);
    Ok(())
}
