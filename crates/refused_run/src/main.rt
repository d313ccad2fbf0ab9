// A test that ships nothing: the program on a file that isn't there. Its exit status is the number of the status, and nothing stands on
// standard output.
#![tactic(auto)]

use std::process::ExitCode;

fn main(rt: HostRuntime) -> ExitCode {
    orbit_program::run(&rt)
}
