//! What is assembled, and what comes of it.

use m68020_code::{Cond, Instr};

/// A piece of code before its addresses are known.
#[derive(Clone, Copy, Debug, PartialEq, Eq)]
pub enum Item {
    /// An instruction that names no label: a row of the table, and no branch.
    Plain(Instr),
    /// The label of this number stands here. It has no bytes.
    Label(u32),
    /// A branch to a label: Bcc (MC68020 User's Manual), of two, four or six bytes.
    Branch(Cond, u32),
    /// The address of a label goes into the address register of this number, 0 to 7, by LEA of an absolute long address.
    CodeAddr { reg: u8, label: u32 },
}

/// Code as it stands from address 00010000 on, and the address of each label, at the label's number.
#[derive(Drop)]
pub struct Code {
    pub bytes: Vec<u8>,
    pub labels: Vec<u32>,
}
