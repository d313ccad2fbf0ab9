//! Texts that are compiled without a run, and texts that are checked.

use crate::calls::{Seen, check_over, folder_of, has_image, holds, sink, unwritten};
use orbit_cli::Status;
use std::alloc::Global;
use std::process::Abort;
use std::test::Fail;
use t_ports::memory::MemFolder;

fn check(
    rt: &impl Abort,
    alloc: Global,
    words: &[&str],
    folder: &mut MemFolder,
    err: &'static [u8],
    status: Status,
) -> Result<(), Fail> {
    let seen = Seen {
        out: b"",
        err,
        status,
    };
    check_over(rt, alloc, words, folder, &mut sink(alloc)?, seen)
}

#[test]
fn a_text_is_compiled_and_its_image_is_run(rt: HostRuntime) -> Result<(), Fail> {
    let alloc = rt.alloc();
    let mut folder = folder_of(alloc, "a.t", b"(+ 40 2)", &[])?;
    folder.add("b.t", b"7")?;
    let compile = ["compile", "a.t", "a.img"];
    check(&rt, alloc, &compile, &mut folder, b"", Status::Done)?;
    assert_eq!(rt; holds(alloc, &mut folder, "a.t", b"(+ 40 2)"), true);
    assert_eq!(rt; holds(alloc, &mut folder, "b.t", b"7"), true);
    let seen = Seen {
        out: b"value 42\n",
        err: b"",
        status: Status::Done,
    };
    let run = ["run", "a.img", "64", "64", "100"];
    check_over(&rt, alloc, &run, &mut folder, &mut sink(alloc)?, seen)
}

#[test]
fn an_image_takes_the_place_of_a_file(rt: HostRuntime) -> Result<(), Fail> {
    let alloc = rt.alloc();
    let mut folder = folder_of(alloc, "a.t", b"5", &[])?;
    folder.add("a.img", b"old")?;
    let compile = ["compile", "a.t", "a.img"];
    check(&rt, alloc, &compile, &mut folder, b"", Status::Done)?;
    assert_eq!(rt; holds(alloc, &mut folder, "a.img", b"old"), false);
    assert_eq!(rt; has_image(alloc, &mut folder), true);
    Ok(())
}

#[test]
fn an_image_that_is_not_kept(rt: HostRuntime) -> Result<(), Fail> {
    let alloc = rt.alloc();
    let mut folder = folder_of(alloc, "a.t", b"+5", &[2])?;
    let words = ["compile", "a.t", "a.img"];
    check_over(
        &rt,
        alloc,
        &words,
        &mut folder,
        &mut sink(alloc)?,
        unwritten(b""),
    )?;
    assert_eq!(rt; has_image(alloc, &mut folder), false);
    assert_eq!(rt; holds(alloc, &mut folder, "a.t", b"+5"), true);
    Ok(())
}

/// Texts with a fault of the grammar, and the line of each.
static REFUSED: [(&[u8], &[u8]); 7] = [
    (b"536870912", b"a.t:1:1: R4 FixnumRange\n"),
    (b"(+ 1 (car 2)", b"a.t:1:1: R2 Unclosed\n"),
    (b"(car 1))", b"a.t:1:8: R3 ExtraClose\n"),
    (b"(a . )", b"a.t:1:6: R7 LoneDot\n"),
    (b"#q", b"a.t:1:1: R5 BadHash\n"),
    (b"\"a\\n\"", b"a.t:1:3: R6 BadString\n"),
    (b"[", b"a.t:1:1: R1 BadByte\n"),
];

fn check_refused(
    rt: &impl Abort,
    alloc: Global,
    text: &[u8],
    line: &'static [u8],
) -> Result<(), Fail> {
    let mut folder = folder_of(alloc, "a.t", text, &[])?;
    let status = Status::SourceRefused;
    check(rt, alloc, &["check", "a.t"], &mut folder, line, status)?;
    let compile = ["compile", "a.t", "a.img"];
    check(rt, alloc, &compile, &mut folder, line, status)?;
    assert_eq!(rt; has_image(alloc, &mut folder), false);
    Ok(())
}

#[test]
fn faults_of_the_grammar(rt: HostRuntime) -> Result<(), Fail> {
    for (text, line) in REFUSED {
        check_refused(&rt, rt.alloc(), text, line)?;
    }
    Ok(())
}

#[test]
fn four_hundred_and_one_open_parentheses(rt: HostRuntime) -> Result<(), Fail> {
    let alloc = rt.alloc();
    let text = vec![in alloc; b'('; 401]?;
    check_refused(&rt, alloc, &text, b"a.t:1:401: R8 TooDeep\n")
}

/// Texts that are not refused, each with a defining form, or a node that is neither a fixnum nor a sum.
static UNBUILT: [&[u8]; 4] = [b"(- 1 2)", b"(+ 1 (car 2))", b"t", b"(define x 1) 2"];

#[test]
fn texts_that_are_not_built_yet(rt: HostRuntime) -> Result<(), Fail> {
    let alloc = rt.alloc();
    let compile = ["compile", "a.t", "a.img"];
    let line = b"not built yet\n";
    for text in UNBUILT {
        let mut folder = folder_of(alloc, "a.t", text, &[])?;
        check(&rt, alloc, &compile, &mut folder, line, Status::Unbuilt)?;
        assert_eq!(rt; has_image(alloc, &mut folder), false);
    }
    Ok(())
}
