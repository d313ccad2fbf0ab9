// A test that ships nothing: the program on a file that isn't there, with its streams exchanged, so that what stands on standard output is the
// line that goes to `err`.
#![tactic(auto)]

use std::process::ExitCode;

fn main(rt: HostRuntime) -> ExitCode {
    orbit_program::run_on(&rt, rt.stderr(), rt.stdout())
}
