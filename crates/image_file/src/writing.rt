//! From an image to bytes.

ghost use Rattle.std.specs.Prelude.{◌≡◌, ◌<◌, ◌≤◌, ◌+◌, ◌^◌, ◌++◌, List, ℕ, length, take, IfOk, OnOk};
ghost use Rattle.std.specs.List.{AllByRecursion, flat_map};
ghost use Rattle.image_file.specs.Grammar.{four, header, parts_of, IsName, IsImage, IsImageOf, name_spelling, names_spelling, spelling};

use crate::image::Image;
use std::alloc::Global;
use t_base::{Memory, Name, Names};

fn put_numbers(out: &mut Vec<u8>, numbers: &[u32]) -> Result<(), Memory>
    ensures { OnOk result (out.new.items ≡ out.old.items ++ flat_map four numbers.now) }
{
    for n in numbers {
        out.extend_from_slice(&n.to_be_bytes())?;
    }
    Ok(())
}

fn put_name(out: &mut Vec<u8>, name: &[u8]) -> Result<(), Memory>
    requires { length name.now < 2 ^ 16 }
    ensures { OnOk result (out.new.items ≡ out.old.items ++ name_spelling name.now) }
{
    let length = name.len();
    out.push((length / 256) as u8)?;
    out.push((length % 256) as u8)?;
    out.extend_from_slice(name)?;
    Ok(())
}

/// The names, one after the other.
fn names_part(alloc: Global, names: &Names) -> Result<Vec<u8>, Memory>
    requires { AllByRecursion IsName names.now }
    ensures { IfOk result (λ part. part.items ≡ names_spelling names.now) }
{
    let mut part = Vec::new(alloc);
    for place in 0..names.count() {
        put_name(&mut part, names.text(Name(place)))?;
    }
    Ok(part)
}

fn put_header(out: &mut Vec<u8>, image: &Image, part: &[u8]) -> Result<(), Memory>
    requires image { IsImage (parts_of image.now) }
    requires part { part.now ≡ names_spelling image.now.names }
    ensures { OnOk result (out.new.items ≡ out.old.items ++ header (parts_of image.now)) }
{
    let numbers = [
        0x4F52_4249,
        1,
        image.entry,
        image.code.len() as u32,
        image.statics.len() as u32,
        image.names.count(),
        part.len() as u32,
        0,
    ];
    put_numbers(out, &numbers)
}

/// The one spelling of the image, at most 2^29 bytes. The only error is the want of memory.
pub fn write_image(alloc: Global, image: &Image) -> Result<Vec<u8>, Memory>
    requires { IsImage (parts_of image.now) }
    ensures spelled { IfOk result (λ bytes. IsImageOf bytes.items (parts_of image.now)) }
    ensures few { IfOk result (λ bytes. length bytes.items ≤ 2 ^ 29) }
{
    let part = names_part(alloc, &image.names)?;
    let mut out = Vec::new(alloc);
    put_header(&mut out, image, &part)?;
    out.extend_from_slice(&image.code)?;
    out.extend_from_slice(&image.statics)?;
    out.extend_from_slice(&part)?;
    Ok(out)
}
