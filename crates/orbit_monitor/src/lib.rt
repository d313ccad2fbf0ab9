//! Loads an image into the machine, runs it, and does the services that it asks for. Output goes to a sink as each service is
//! met, and a run can go on where an earlier one left off.
#![tactic(auto)]

mod end;
mod faces;
mod load;
mod monitor;
mod services;

pub use end::End;
pub use load::boot;
pub use machine_services::Exit;
pub use monitor::{Boot, run};
