//! From bytes to an image.

ghost use Rattle.std.specs.Prelude.{◌≡◌, ◌<◌, ◌≤◌, ◌+◌, ◌^◌, List, ℕ, length, IfOk, Ok};
ghost use Rattle.image_file.specs.Grammar.{Parts, parts_of, IsImage, IsImageOf, spelling};
ghost use Rattle.image_file.specs.Reading.{Gives, number_at, total, frame_refusal, entry_is_code, code_length_fits, static_length_fits, field_refusal, parts_at, image_at};

use crate::fault::{ImageFault, ImageKind};
use crate::image::Image;
use crate::names::names_of;
use std::alloc::Global;

fn number_of(bytes: &[u8], at: usize) -> u32
    requires { at + 4 ≤ length bytes.now }
    ensures { result ≡ number_at at bytes.now }
{
    let number = &bytes[at..][..4];
    u32::from_be_bytes([number[0], number[1], number[2], number[3]])
}

fn total_of(bytes: &[u8]) -> u64
    requires { 32 ≤ length bytes.now }
    ensures { result ≡ total bytes.now }
{
    32 + number_of(bytes, 12) as u64 + number_of(bytes, 16) as u64 + number_of(bytes, 24) as u64
}

/// Why the bytes can't be an image, by their first eight and their number.
fn frame_fault(bytes: &[u8]) -> Option<(ImageKind, u32)>
    requires { length bytes.now ≤ 2 ^ 29 }
    ensures { result ≡ frame_refusal bytes.now }
{
    let length = bytes.len();
    if length < 4 || number_of(bytes, 0) != 0x4F52_4249 {
        return Some((ImageKind::Magic, 0));
    }
    if 8 <= length && number_of(bytes, 4) != 1 {
        return Some((ImageKind::Version, 4));
    }
    if length < 32 {
        return Some((ImageKind::Short, length as u32));
    }
    let total = total_of(bytes);
    if (length as u64) < total {
        return Some((ImageKind::Short, length as u32));
    }
    if total < length as u64 {
        return Some((ImageKind::Long, total as u32));
    }
    None
}

fn entry_is_code(entry: u32, code: u32) -> bool
    ensures { result ≡ entry_is_code entry code }
{
    entry % 2 == 0 && 65536 <= entry && (entry as u64) < 65536 + code as u64
}

fn code_length_fits(n: u32) -> bool
    ensures { result ≡ code_length_fits n }
{
    n % 2 == 0 && 2 <= n && n <= 1 << 28
}

fn static_length_fits(n: u32) -> bool
    ensures { result ≡ static_length_fits n }
{
    n % 8 == 0 && n <= 1 << 27
}

/// The first field of the header that breaks its rule.
fn field_fault(bytes: &[u8]) -> Option<(ImageKind, u32)>
    requires { 32 ≤ length bytes.now }
    ensures { result ≡ field_refusal bytes.now }
{
    if !entry_is_code(number_of(bytes, 8), number_of(bytes, 12)) {
        return Some((ImageKind::Field, 8));
    }
    if !code_length_fits(number_of(bytes, 12)) {
        return Some((ImageKind::Field, 12));
    }
    if !static_length_fits(number_of(bytes, 16)) {
        return Some((ImageKind::Field, 16));
    }
    if number_of(bytes, 24) > 1 << 26 {
        return Some((ImageKind::Field, 24));
    }
    if number_of(bytes, 28) != 0 {
        return Some((ImageKind::Field, 28));
    }
    None
}

/// The parts, behind a header without a fault.
#[tactic(auto, unfolding(crate::specs::Reading::parts_at))]
fn parts_of(alloc: Global, bytes: &[u8]) -> Result<Image, ImageFault>
    requires some { 32 ≤ length bytes.now }
    requires few { length bytes.now ≤ 2 ^ 29 }
    requires whole { total bytes.now ≡ length bytes.now }
    ensures { Gives parts_of result (parts_at bytes.now) }
{
    let (_, body) = bytes.split_at(32);
    let (code, rest) = body.split_at(number_of(bytes, 12) as usize);
    let (statics, part) = rest.split_at(number_of(bytes, 16) as usize);
    let start = (bytes.len() - part.len()) as u32;
    let names = names_of(alloc, number_of(bytes, 20), part, start)?;
    let code = Vec::from_slice(alloc, code)?;
    let statics = Vec::from_slice(alloc, statics)?;
    let entry = number_of(bytes, 8);
    Ok(Image {
        code,
        statics,
        entry,
        names,
    })
}

#[tactic(auto, unfolding(crate::specs::Reading::image_at))]
fn image_of(alloc: Global, bytes: &[u8]) -> Result<Image, ImageFault>
    requires { length bytes.now ≤ 2 ^ 29 }
    ensures { Gives parts_of result (image_at bytes.now) }
{
    if let Some((kind, at)) = frame_fault(bytes) {
        return Err(ImageFault::Fault { kind, at });
    }
    if let Some((kind, at)) = field_fault(bytes) {
        return Err(ImageFault::Fault { kind, at });
    }
    parts_of(alloc, bytes)
}

/// The image that the bytes spell, all of the bytes. Where they spell none: the first field that fails, in the order of
/// `ImageKind`, fields by offset, then names; `at` is its offset. `Memory` is the want of memory; no clause says when it comes.
pub fn read_image(alloc: Global, bytes: &[u8]) -> Result<Image, ImageFault>
    requires { length bytes.now ≤ 2 ^ 29 }
    // What is read is spelled so.
    ensures found { IfOk result (λ image. IsImageOf bytes.now (parts_of image)) }
    // What is spelled so is read, but for want of memory.
    ensures only { (image : Parts) → IsImageOf bytes.now image → Gives parts_of result (Ok image) }
    // Which field is the first that fails.
    ensures fault { Gives parts_of result (image_at bytes.now) }
{
    image_of(alloc, bytes)
}
