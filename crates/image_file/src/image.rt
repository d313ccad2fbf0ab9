//! What an image holds.

use t_base::Names;

/// A program for the machine. Which values are images, with the bounds of each field, `IsImage` of the grammar says.
#[derive(Drop)]
pub struct Image {
    /// The code, as it stands from address 00010000 on: an even number of bytes, 2 to 2^28.
    pub code: Vec<u8>,
    /// The static words: a multiple of eight bytes, at most 2^27.
    pub statics: Vec<u8>,
    /// The address of the first instruction, even and in the code.
    pub entry: u32,
    /// The texts of the symbols, each at its symbol's place: of 1 to 65,535 bytes from 21 to 7E.
    pub names: Names,
}
