//! A folder and a sink that fail.

use crate::calls::{Seen, check_over, folder_of, has_image, sink, unwritten, words_of};
use orbit_cli::{Status, orbit};
use std::alloc::Global;
use std::process::Abort;
use std::test::Fail;
use t_ports::memory::MemSink;

static GO: [&str; 6] = ["go", "a.t", "a.img", "64", "64", "1000"];

#[test]
fn a_text_that_is_not_there(rt: HostRuntime) -> Result<(), Fail> {
    let alloc = rt.alloc();
    let mut folder = folder_of(alloc, "b.t", b"(+ 40 2)", &[])?;
    let seen = Seen {
        out: b"",
        err: b"cannot read: a.t\n",
        status: Status::FetchFault,
    };
    check_over(&rt, alloc, &GO, &mut folder, &mut sink(alloc)?, seen)?;
    assert_eq!(rt; has_image(alloc, &mut folder), false);
    Ok(())
}

#[test]
fn an_image_that_is_not_kept(rt: HostRuntime) -> Result<(), Fail> {
    let alloc = rt.alloc();
    let mut folder = folder_of(alloc, "a.t", b"(+ 536870910 1)", &[2])?;
    let mut out = sink(alloc)?;
    check_over(&rt, alloc, &GO, &mut folder, &mut out, unwritten(b""))?;
    assert_eq!(rt; has_image(alloc, &mut folder), false);
    Ok(())
}

#[test]
fn a_text_that_is_too_long(rt: HostRuntime) -> Result<(), Fail> {
    let alloc = rt.alloc();
    let blanks = vec![in alloc; b' '; 0x10_0001]?;
    let mut folder = folder_of(alloc, "a.t", &blanks, &[])?;
    let seen = Seen {
        out: b"",
        err: b"too long: a.t\n",
        status: Status::LongFile,
    };
    let compile = ["compile", "a.t", "a.img"];
    for words in [GO.as_slice(), &compile, &["check", "a.t"]] {
        check_over(&rt, alloc, words, &mut folder, &mut sink(alloc)?, seen)?;
    }
    assert_eq!(rt; has_image(alloc, &mut folder), false);
    Ok(())
}

/// How much room `out` has, and what it holds when its room is used up.
static ROOMS: [(usize, &[u8]); 3] = [(0, b""), (3, b"val"), (8, b"value 42")];

fn check_room(
    rt: &impl Abort,
    alloc: Global,
    room: usize,
    held: &'static [u8],
) -> Result<(), Fail> {
    let mut folder = folder_of(alloc, "a.t", b"(+ 40 2) ; sum", &[])?;
    let mut out = MemSink::new(alloc, room, Vec::new(alloc))?;
    check_over(rt, alloc, &GO, &mut folder, &mut out, unwritten(held))?;
    assert_eq!(rt; has_image(alloc, &mut folder), true);
    Ok(())
}

#[test]
fn output_that_is_not_written(rt: HostRuntime) -> Result<(), Fail> {
    for (room, held) in ROOMS {
        check_room(&rt, rt.alloc(), room, held)?;
    }
    Ok(())
}

#[test]
fn an_error_that_is_not_written_changes_no_status(rt: HostRuntime) -> Result<(), Fail> {
    let alloc = rt.alloc();
    let mut folder = folder_of(alloc, "a.t", b"(- 1 2)", &[])?;
    let mut out = sink(alloc)?;
    let mut err = MemSink::new(alloc, 0, Vec::new(alloc))?;
    let words = words_of(alloc, &GO)?;
    let status = orbit(alloc, &words, &mut folder, &mut out, &mut err);
    assert_eq!(rt; status, Status::Unbuilt);
    assert_eq!(rt; err.bytes(), b"".as_slice());
    Ok(())
}

/// The words of each command on a file `a`.
static COMMANDS: [&[&str]; 5] = [
    &["compile", "a", "b"],
    &["run", "a", "64", "64", "3"],
    &["go", "a", "b", "64", "64", "3"],
    &["check", "a"],
    &["list", "a"],
];

#[test]
fn a_fetch_that_fails(rt: HostRuntime) -> Result<(), Fail> {
    let alloc = rt.alloc();
    let seen = Seen {
        out: b"",
        err: b"cannot read: a\n",
        status: Status::FetchFault,
    };
    for words in COMMANDS {
        let mut folder = folder_of(alloc, "a", b"5", &[1])?;
        check_over(&rt, alloc, words, &mut folder, &mut sink(alloc)?, seen)?;
    }
    Ok(())
}
