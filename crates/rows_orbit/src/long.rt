//! Files with more bytes than the program takes, by a folder that has no bytes at all.

use crate::calls::{Seen, check_over, sink};
use orbit_cli::Status;
use std::alloc::Global;
use std::process::Abort;
use std::test::Fail;
use t_ports::ports::{FetchFault, Folder, KeepFault};

/// A folder each of whose files is one byte longer than what is asked for, and how much was asked for last.
#[derive(Drop)]
struct LongFolder {
    asked: usize,
}

impl Folder for LongFolder {
    ghost use Rattle.std.specs.Prelude.{None};

    ghost files = { λ _. None };

    ghost fetch_faults = { λ _. 0 };

    ghost keep_faults = { λ _. 0 };

    ghost fetched = { λ _ _ _. Unit {0} };

    ghost fetched_nothing = { λ _. tt };

    ghost fetched_both = { λ _ _ _ _ _ _ _. tt };

    fn fetch(&mut self, _alloc: Global, _name: &str, cap: usize) -> Result<Vec<u8>, FetchFault> {
        self.asked = cap;
        match cap.checked_add(1) {
            Some(read) => Err(FetchFault::Long { read }),
            None => Err(FetchFault::Memory),
        }
    }

    fn keep(&mut self, _alloc: Global, _name: &str, _bytes: &[u8]) -> Result<(), KeepFault> {
        Ok(())
    }
}

fn check_long(
    rt: &impl Abort,
    alloc: Global,
    words: &[&str],
    most: usize,
    err: &'static [u8],
) -> Result<(), Fail> {
    let mut folder = LongFolder { asked: 0 };
    let seen = Seen {
        out: b"",
        err,
        status: Status::LongFile,
    };
    check_over(rt, alloc, words, &mut folder, &mut sink(alloc)?, seen)?;
    assert_eq!(rt; folder.asked, most);
    Ok(())
}

#[test]
fn an_image_that_is_too_long(rt: HostRuntime) -> Result<(), Fail> {
    let alloc = rt.alloc();
    let line = b"too long: m0\n";
    let run = ["run", "m0", "64", "64", "3"];
    check_long(&rt, alloc, &run, 536_870_912, line)?;
    check_long(&rt, alloc, &["list", "m0"], 536_870_912, line)
}

#[test]
fn a_text_that_is_too_long(rt: HostRuntime) -> Result<(), Fail> {
    let alloc = rt.alloc();
    let line = b"too long: a.t\n";
    let go = ["go", "a.t", "a.img", "64", "64", "3"];
    check_long(&rt, alloc, &go, 1_048_576, line)?;
    check_long(&rt, alloc, &["compile", "a.t", "a.img"], 1_048_576, line)?;
    check_long(&rt, alloc, &["check", "a.t"], 1_048_576, line)
}
