//! Commands on an image: calls and what is seen of them.

use crate::calls::{Seen, check_over, folder_of, sink};
use orbit_cli::Status;
use std::alloc::Global;
use std::process::Abort;
use std::test::Fail;
use t_ports::memory::MemSink;

/// The image of six bytes of code that puts 7 and halts with it: MOVEQ #28,D0, TRAP #2, TRAP #0.
pub static SEVEN: &[u8] =
    b"ORBI\x00\x00\x00\x01\x00\x01\x00\x00\x00\x00\x00\x06\x00\x00\x00\x00\x00\x00\x00\x00\x00\x00\x00\x00\x00\x00\x00\x00\x70\x1C\x4E\x42\x4E\x40";

/// The image of some code, without static words and names.
pub fn image_of(rt: &impl Abort, alloc: Global, code: &[u8]) -> Result<Vec<u8>, Fail> {
    assert!(rt; code.len() < 1000);
    let mut bytes = Vec::from_slice(alloc, &SEVEN[..12])?;
    bytes.extend_from_slice(&(code.len() as u32).to_be_bytes())?;
    bytes.extend_from_slice(&SEVEN[16..32])?;
    bytes.extend_from_slice(code)?;
    Ok(bytes)
}

/// Does a command on the bytes, which are in the folder under m0.
pub fn check_on(
    rt: &impl Abort,
    alloc: Global,
    image: &[u8],
    words: &[&str],
    out: &mut MemSink,
    seen: Seen,
) -> Result<(), Fail> {
    let mut folder = folder_of(alloc, "m0", image, &[])?;
    check_over(rt, alloc, words, &mut folder, out, seen)
}

/// The same with ample room for what is put out.
pub fn check(
    rt: &impl Abort,
    alloc: Global,
    image: &[u8],
    words: &[&str],
    seen: Seen,
) -> Result<(), Fail> {
    check_on(rt, alloc, image, words, &mut sink(alloc)?, seen)
}

pub fn done(out: &'static [u8]) -> Seen {
    Seen {
        out,
        err: b"",
        status: Status::Done,
    }
}

pub fn refused(err: &'static [u8]) -> Seen {
    Seen {
        out: b"",
        err,
        status: Status::BadImage,
    }
}
