//! What a case leaves.

use m68020_step::{Sizes, Step};
use machine_cases::{answer_text, case_of, state_text};
use stamp_step::{StampStep, Stamped};
use std::alloc::{AllocError, Global};

fn run(m: &mut Stamped, steps: u64) -> StampStep {
    let mut last = StampStep::Step(Step::On);
    for _ in 0..steps {
        if m.steps() == u64::MAX {
            return last;
        }
        last = m.stamp();
        match last {
            StampStep::Stale { .. } | StampStep::Step(Step::Stop(_)) => return last,
            StampStep::Step(_) => {}
        }
    }
    last
}

fn answered(alloc: Global, last: StampStep) -> Result<String, AllocError> {
    match last {
        StampStep::Step(answer) => answer_text(alloc, answer),
        StampStep::Stale { at } => format!(in alloc; "Stale{at:x}"),
    }
}

/// What the program of a line leaves.
pub fn outcome(alloc: Global, line: &str) -> Result<String, AllocError> {
    let Some(case) = case_of(alloc, line) else {
        return format!(in alloc; "no case");
    };
    let statics = case.statics.len() as u32;
    let sizes = Sizes {
        heap: 64,
        stack: 64,
    };
    let Ok(mut m) = Stamped::new(alloc, case.code, case.statics, 0x1_0000, sizes) else {
        return Err(AllocError);
    };
    let last = run(&mut m, case.steps);
    let answer = answered(alloc, last)?;
    let state = state_text(alloc, m.machine(), statics)?;
    format!(in alloc; "{} {answer} {state}", m.steps())
}
