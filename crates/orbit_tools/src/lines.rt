//! The listing of an image's code.

ghost use Rattle.std.specs.Prelude.{◌≡◌, ◌≤◌, ◌%◌, ◌^◌, ◌++◌, codes, length, take, IsTrue, OnOk, IfOk};
ghost use Rattle.m68020_code.specs.Table.{is_row};
ghost use Rattle.orbit_tools.specs.Text.{hex, instruction};
ghost use Rattle.orbit_tools.specs.Listing.{front, line, size_at, first_line, listing_of};

use crate::digits::{put_address, put_hex, put_words};
use crate::instruction::put_instruction;
use image_file::Image;
use m68020_code::{Instr, decode};
use std::alloc::Global;
use t_base::Memory;

/// Where code starts in the machine.
const CODE_START: u32 = 0x1_0000;

// An address and the words that stand there.
fn put_front(out: &mut Vec<u8>, at: u32, bytes: &[u8]) -> Result<(), Memory>
    ensures { OnOk result (out.new.items ≡ out.old.items ++ front at bytes.now) }
{
    put_address(out, at)?;
    out.extend_from_slice(b"  ")?;
    put_words(out, bytes)?;
    out.push(b' ')?;
    Ok(())
}

// The line of an instruction of these bytes.
fn put_row(out: &mut Vec<u8>, at: u32, bytes: &[u8], i: Instr) -> Result<(), Memory>
    requires { IsTrue (is_row i) }
    ensures { OnOk result (out.new.items ≡ out.old.items ++ line at bytes.now (instruction at i)) }
{
    put_front(out, at, bytes)?;
    put_instruction(out, at, i)?;
    out.push(b'\n')?;
    Ok(())
}

// The line of a word that begins no instruction.
fn put_word(out: &mut Vec<u8>, at: u32, bytes: &[u8]) -> Result<(), Memory>
    ensures { OnOk result (out.new.items ≡ out.old.items ++ line at bytes.now (codes ".WORD " ++ hex bytes.now)) }
{
    put_front(out, at, bytes)?;
    out.extend_from_slice(b".WORD ")?;
    put_hex(out, bytes)?;
    out.push(b'\n')?;
    Ok(())
}

// The line of what stands at the front of the bytes, and how many of them it shows.
fn put_first(out: &mut Vec<u8>, at: u32, bytes: &[u8]) -> Result<usize, Memory>
    requires { 2 ≤ length bytes.now }
    ensures line { OnOk result (out.new.items ≡ out.old.items ++ first_line at bytes.now) }
    ensures size { IfOk result (λ size. size ≡ size_at bytes.now) }
    ensures some { IfOk result (λ size. 2 ≤ size) }
    ensures even { IfOk result (λ size. size % 2 ≡ 0) }
    ensures within { IfOk result (λ size. size ≤ length bytes.now) }
{
    match decode(bytes) {
        Some((i, size)) => {
            put_row(out, at, &bytes[..size], i)?;
            Ok(size)
        }
        None => {
            put_word(out, at, &bytes[..2])?;
            Ok(2)
        }
    }
}

/// The listing of an image's code: a line for each instruction, and one for each word at which no instruction stands.
///
/// The code has a length that the image format allows. The only error is the want of memory.
pub fn listing(alloc: Global, image: &Image) -> Result<Vec<u8>, Memory>
    requires even { length image.now.code.items % 2 ≡ 0 }
    requires some { 2 ≤ length image.now.code.items }
    requires short { length image.now.code.items ≤ 2 ^ 28 }
    ensures { IfOk result (λ text. text.items ≡ listing_of image.now.code.items) }
{
    let mut out = Vec::new(alloc);
    let mut rest = image.code.as_slice();
    let mut at = CODE_START;
    'lines: while !rest.is_empty() {
        let size = put_first(&mut out, at, rest)?;
        let (_, after) = rest.split_at(size);
        at += size as u32;
        rest = after;
    }
    Ok(out)
}
