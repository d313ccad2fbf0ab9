//! Texts at the limits: open parentheses, literals and sums of a form, bytes.

use crate::calls::{Seen, check_over, folder_of, sink};
use orbit_cli::Status;
use std::alloc::Global;
use std::process::Abort;
use std::test::Fail;

/// Puts a form of so many sums, each the first operand of the next one and the others 1.
fn put_sums(text: &mut Vec<u8>, sums: usize) -> Result<(), Fail> {
    for _ in 0..sums {
        text.extend_from_slice(b"(+ ")?;
    }
    text.extend_from_slice(b"1")?;
    for _ in 0..sums {
        text.extend_from_slice(b" 1)")?;
    }
    Ok(())
}

fn check(
    rt: &impl Abort,
    alloc: Global,
    text: &[u8],
    out: &'static [u8],
    err: &'static [u8],
    status: Status,
) -> Result<(), Fail> {
    let mut folder = folder_of(alloc, "a.t", text, &[])?;
    let words = ["go", "a.t", "a.img", "64", "64", "10000000"];
    let seen = Seen { out, err, status };
    check_over(rt, alloc, &words, &mut folder, &mut sink(alloc)?, seen)
}

#[test]
fn four_hundred_open_parentheses(rt: HostRuntime) -> Result<(), Fail> {
    let alloc = rt.alloc();
    let mut most = Vec::new(alloc);
    put_sums(&mut most, 400)?;
    check(&rt, alloc, &most, b"value 401\n", b"", Status::Done)?;
    let mut over = Vec::new(alloc);
    put_sums(&mut over, 401)?;
    let line = b"a.t:1:1201: R8 TooDeep\n";
    check(&rt, alloc, &over, b"", line, Status::SourceRefused)
}

/// A form of three rows of sums: two sums more than the rows have.
fn put_three(text: &mut Vec<u8>, first: usize, second: usize, third: usize) -> Result<(), Fail> {
    text.extend_from_slice(b"(+ ")?;
    put_sums(text, first)?;
    text.extend_from_slice(b"(+ ")?;
    put_sums(text, second)?;
    text.extend_from_slice(b" ")?;
    put_sums(text, third)?;
    text.extend_from_slice(b"))")?;
    Ok(())
}

#[test]
fn a_form_of_two_thousand_literals_and_sums(rt: HostRuntime) -> Result<(), Fail> {
    let alloc = rt.alloc();
    // A form has one literal more than it has sums: 999 sums make 1,999 of both, and 1,000 make 2,001.
    let mut most = Vec::new(alloc);
    put_three(&mut most, 332, 332, 333)?;
    check(&rt, alloc, &most, b"value 1000\n", b"", Status::Done)?;
    let mut over = Vec::new(alloc);
    put_three(&mut over, 332, 333, 333)?;
    let line = b"a.t: L1 FormNodes 2001 over 2000\n";
    check(&rt, alloc, &over, b"", line, Status::Limit)
}

#[test]
fn a_text_of_the_most_bytes(rt: HostRuntime) -> Result<(), Fail> {
    let alloc = rt.alloc();
    let mut text = vec![in alloc; b' '; 0xF_FFF9]?;
    text.extend_from_slice(b"(+ 1 2)")?;
    assert_eq!(rt; text.len(), 0x10_0000);
    check(&rt, alloc, &text, b"value 3\n", b"", Status::Done)
}

#[test]
fn a_text_of_the_most_sums(rt: HostRuntime) -> Result<(), Fail> {
    let alloc = rt.alloc();
    // Each form has three nodes and weighs 121.
    let mut text = Vec::new(alloc);
    for _ in 0..0x2_0000 {
        text.extend_from_slice(b"(+ 1 2)\n")?;
    }
    assert_eq!(rt; text.len(), 0x10_0000);
    let line = b"a.t: L2 UnitWeight 15859712 over 4194304\n";
    check(&rt, alloc, &text, b"", line, Status::Limit)
}
