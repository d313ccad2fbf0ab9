//! The code of operations on frames, of reads, of globals and cells, and of ends, written.
#![tactic(auto)]

mod ends;
mod frames;
mod reads;
mod runs;

pub use crate::ends::{call, give_back, halt, jump, test};
pub use crate::frames::{pop_frame, push_frame, push_vars};
pub use crate::reads::{
    cell_get, cell_set, closure_get, frame_get, global_change, global_get, global_set,
};
pub use crate::runs::{bytes_of, heap_stores, store_operands, stores};
