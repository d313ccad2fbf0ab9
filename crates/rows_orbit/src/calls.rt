//! A call of the program, and what is seen of it.

use orbit_cli::{Status, orbit};
use std::alloc::Global;
use std::process::Abort;
use std::test::Fail;
use t_ports::memory::{MemFolder, MemSink};
use t_ports::ports::Folder;

/// What is put out and noted, and the status.
#[derive(Clone, Copy)]
pub struct Seen {
    pub out: &'static [u8],
    pub err: &'static [u8],
    pub status: Status,
}

/// `out` took this, and then a put to it or to the folder failed.
pub fn unwritten(out: &'static [u8]) -> Seen {
    Seen {
        out,
        err: b"cannot write\n",
        status: Status::WriteFault,
    }
}

/// A text that is compiled and run, and what is expected.
#[derive(Clone, Copy)]
pub struct Row {
    pub text: &'static [u8],
    pub steps: &'static str,
    pub out: &'static [u8],
    pub err: &'static [u8],
    pub status: Status,
}

pub fn words_of(alloc: Global, words: &[&str]) -> Result<Vec<String>, Fail> {
    let mut all = Vec::new(alloc);
    for word in words {
        all.push(String::from_str(alloc, word)?)?;
    }
    Ok(all)
}

/// A sink with ample room.
pub fn sink(alloc: Global) -> Result<MemSink, Fail> {
    Ok(MemSink::new(alloc, 1000, Vec::new(alloc))?)
}

/// A folder with one file, whose calls with these numbers fail.
pub fn folder_of(alloc: Global, name: &str, bytes: &[u8], fail: &[u32]) -> Result<MemFolder, Fail> {
    let mut folder = MemFolder::new(alloc, fail.to_vec(alloc)?);
    folder.add(name, bytes)?;
    Ok(folder)
}

/// Does a command over the folder.
pub fn check_over<F: Folder>(
    rt: &impl Abort,
    alloc: Global,
    words: &[&str],
    folder: &mut F,
    out: &mut MemSink,
    seen: Seen,
) -> Result<(), Fail> {
    let mut err = sink(alloc)?;
    let status = orbit(alloc, &words_of(alloc, words)?, folder, out, &mut err);
    assert_eq!(rt; out.bytes(), seen.out);
    assert_eq!(rt; err.bytes(), seen.err);
    assert_eq!(rt; status, seen.status);
    Ok(())
}

/// Whether the folder holds these bytes under the name.
pub fn holds(alloc: Global, folder: &mut MemFolder, name: &str, bytes: &[u8]) -> bool {
    match folder.fetch(alloc, name, 1 << 29) {
        Ok(held) => held.as_slice() == bytes,
        Err(_) => false,
    }
}

/// Whether the folder holds an image under the name that the rows give it.
pub fn has_image(alloc: Global, folder: &mut MemFolder) -> bool {
    folder.fetch(alloc, "a.img", 1 << 29).is_ok()
}

/// Compiles and runs the text of a row with heap 64 and stack 64.
pub fn check(rt: &impl Abort, alloc: Global, row: Row, kept: bool) -> Result<(), Fail> {
    let mut folder = folder_of(alloc, "a.t", row.text, &[])?;
    let words = ["go", "a.t", "a.img", "64", "64", row.steps];
    let seen = Seen {
        out: row.out,
        err: row.err,
        status: row.status,
    };
    check_over(rt, alloc, &words, &mut folder, &mut sink(alloc)?, seen)?;
    assert_eq!(rt; has_image(alloc, &mut folder), kept);
    Ok(())
}
