//! The program: `orbit` over the files and streams of the system.
#![tactic(auto)]

use orbit_cli::{Status, orbit};
use std::alloc::AllocError;
use std::io::{ErrorKind, Write};
use std::process::ExitCode;
use t_ports::ports::Sink;
use t_ports::real::{DiskFolder, StdSink};

// The words without the program's own name; none where one of them is not UTF-8.
fn words_of(rt: &HostRuntime) -> Result<Vec<String>, AllocError> {
    let mut words = Vec::new(rt.alloc());
    match std::env::args(rt) {
        Ok(given) => {
            for word in given.skip(1) {
                words.push(word)?;
            }
        }
        Err(error) => {
            if error.kind() == ErrorKind::OutOfMemory {
                return Err(AllocError);
            }
        }
    }
    Ok(words)
}

/// Gives `orbit` the words of the command line, the files of the system and these streams, and ends with the number of the status.
pub fn run_on<O: Write + Drop, E: Write + Drop>(rt: &HostRuntime, out: O, err: E) -> ExitCode {
    let mut folder = DiskFolder::new(rt);
    let mut out = StdSink::new(out);
    let mut err = StdSink::new(err);
    let status = match words_of(rt) {
        Ok(words) => orbit(rt.alloc(), &words, &mut folder, &mut out, &mut err),
        Err(_) => {
            let _ = err.put(b"out of memory\n");
            Status::Memory
        }
    };
    ExitCode::from(status.number())
}

/// The same with standard output as `out` and standard error as `err`.
pub fn run(rt: &HostRuntime) -> ExitCode {
    run_on(rt, rt.stdout(), rt.stderr())
}
