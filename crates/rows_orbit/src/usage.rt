//! Words that are no command.

use crate::calls::{Seen, check_over, folder_of, has_image, sink};
use orbit_cli::Status;
use std::alloc::Global;
use std::process::Abort;
use std::test::Fail;

static USAGE: &[u8] =
    b"usage: orbit compile SRC IMG | run IMG HEAP STACK STEPS | go SRC IMG HEAP STACK STEPS | check SRC | list IMG | trial N STEPS\n";

fn check_usage(rt: &impl Abort, alloc: Global, words: &[&str]) -> Result<(), Fail> {
    let mut folder = folder_of(alloc, "a.t", b"(+ 40 2)", &[])?;
    let seen = Seen {
        out: b"",
        err: USAGE,
        status: Status::Usage,
    };
    check_over(rt, alloc, words, &mut folder, &mut sink(alloc)?, seen)?;
    assert_eq!(rt; has_image(alloc, &mut folder), false);
    Ok(())
}

/// Heap, stack and steps that are no numbers within their limits.
static NUMBERS: [[&str; 3]; 11] = [
    ["63", "64", "1"],
    ["60", "64", "1"],
    ["268435464", "64", "1"],
    ["64", "268435464", "1"],
    ["64", "72.", "1"],
    ["64", "64", "1099511627777"],
    ["64", "64", "+1"],
    ["64", "64", "-1"],
    ["64", "64", ""],
    ["64", " 64", "1"],
    ["0x40", "64", "1"],
];

#[test]
fn numbers_outside_their_limits(rt: HostRuntime) -> Result<(), Fail> {
    for [heap, stack, steps] in NUMBERS {
        check_usage(&rt, rt.alloc(), &["go", "a.t", "a.img", heap, stack, steps])?;
    }
    Ok(())
}

/// Words that are no row of the table.
static OTHER_WORDS: [&[&str]; 18] = [
    &[],
    &["go"],
    &["go", "a.t", "a.img", "64", "64"],
    &["go", "a.t", "a.img", "64", "64", "1", "1"],
    &["Go", "a.t", "a.img", "64", "64", "1"],
    &["trial", "1", "2", "3"],
    &["compile"],
    &["compile", "a.t"],
    &["compile", "a.t", "a.img", "64"],
    &["Compile", "a.t", "a.img"],
    &["check"],
    &["check", "a.t", "a.img"],
    &["list"],
    &["list", "a.t", "a.img"],
    &["run", "a.t"],
    &["run", "a.t", "64", "64"],
    &["run", "a.t", "63", "64", "3"],
    &["run", "a.t", "64", "64", "1099511627777"],
];

#[test]
fn words_that_are_no_row(rt: HostRuntime) -> Result<(), Fail> {
    for words in OTHER_WORDS {
        check_usage(&rt, rt.alloc(), words)?;
    }
    Ok(())
}
