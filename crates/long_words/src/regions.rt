//! Where the four regions of storage start in the address space.

/// Where code starts. Data is read from it and never written to it.
pub const CODE_START: u32 = 0x1_0000;

/// Where static data starts.
pub const STATICS_START: u32 = 0x2000_0000;

/// Where the heap starts.
pub const HEAP_START: u32 = 0x4000_0000;

/// Where the stack's region starts. The stack grows down from its end.
pub const STACK_START: u32 = 0x6000_0000;
