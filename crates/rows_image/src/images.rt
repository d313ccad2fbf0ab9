//! Whole and damaged images. What is expected was computed by a reader of images in another language.

use image_file::ImageKind::{Field, Long, Magic, Short, Version};
use image_file::{Image, ImageFault, ImageKind, read_image, write_image};
use std::alloc::Global;
use std::test::Fail;
use t_base::Names;

/// The image with four bytes of code, eight of static words, and the names `car`, `cdr` and `x`.
static WHOLE: &[u8; 57] =
    b"\x4f\x52\x42\x49\x00\x00\x00\x01\x00\x01\x00\x00\x00\x00\x00\x04\x00\x00\x00\x08\x00\x00\x00\x03\x00\x00\x00\x0d\x00\x00\x00\x00\x70\x00\x4e\x40\x00\x01\x02\x03\x04\x05\x06\x07\x00\x03car\x00\x03cdr\x00\x01x";

/// The image that prints a word and ends, without static words and names.
static SMALL: &[u8; 38] =
    b"\x4f\x52\x42\x49\x00\x00\x00\x01\x00\x01\x00\x00\x00\x00\x00\x06\x00\x00\x00\x00\x00\x00\x00\x00\x00\x00\x00\x00\x00\x00\x00\x00\x70\x1c\x4e\x42\x4e\x40";

type Edit = (usize, u8);

type Case = (Edit, Edit, usize, Option<(ImageKind, u32)>);

/// Two bytes of `WHOLE` that are changed (57 is past the end), the length to which it is cut or filled with zeros, and
/// what fails first.
static DAMAGED: [Case; 36] = [
    ((3, 0), (7, 2), 57, Some((Magic, 0))),
    ((3, 0), (57, 0), 3, Some((Magic, 0))),
    ((7, 0), (57, 0), 57, Some((Version, 4))),
    ((7, 2), (57, 0), 8, Some((Version, 4))),
    ((7, 2), (57, 0), 7, Some((Short, 7))),
    ((57, 0), (57, 0), 31, Some((Short, 31))),
    ((31, 1), (57, 0), 56, Some((Short, 56))),
    ((12, 255), (16, 255), 57, Some((Short, 57))),
    ((27, 14), (57, 0), 57, Some((Short, 57))),
    ((27, 12), (57, 0), 57, Some((Long, 56))),
    ((57, 0), (57, 0), 58, Some((Long, 57))),
    ((11, 1), (31, 1), 57, Some((Field, 8))),
    ((11, 2), (57, 0), 57, None),
    ((11, 4), (57, 0), 57, Some((Field, 8))),
    ((9, 0), (57, 0), 57, Some((Field, 8))),
    ((15, 0), (19, 12), 57, Some((Field, 8))),
    ((15, 3), (19, 9), 57, Some((Field, 12))),
    ((15, 2), (19, 10), 57, Some((Field, 16))),
    ((15, 12), (19, 0), 57, None),
    ((28, 1), (46, 0), 57, Some((Field, 28))),
    ((23, 0), (57, 0), 57, Some((Field, 44))),
    ((23, 2), (56, 0), 57, Some((Field, 54))),
    ((23, 4), (57, 0), 57, Some((Field, 57))),
    ((20, 255), (57, 0), 57, Some((Field, 57))),
    ((45, 0), (57, 0), 57, Some((Field, 44))),
    ((45, 11), (57, 0), 57, Some((Field, 49))),
    ((45, 12), (57, 0), 57, Some((Field, 44))),
    ((46, 32), (47, 127), 57, Some((Field, 46))),
    ((46, 33), (47, 126), 57, None),
    ((47, 127), (57, 0), 57, Some((Field, 47))),
    ((52, 97), (53, 114), 57, Some((Field, 49))),
    ((50, 1), (57, 0), 57, Some((Field, 52))),
    ((50, 6), (57, 0), 57, Some((Field, 54))),
    ((55, 2), (57, 0), 57, Some((Field, 54))),
    ((56, 200), (57, 0), 57, Some((Field, 56))),
    ((36, 255), (43, 255), 57, None),
];

fn edit(bytes: &mut Vec<u8>, (at, byte): Edit) {
    if at < bytes.len() {
        bytes[at] = byte;
    }
}

fn fault_of(alloc: Global, bytes: &[u8]) -> Option<(ImageKind, u32)> {
    if bytes.len() > 1000 {
        return None;
    }
    match read_image(alloc, bytes) {
        Err(ImageFault::Fault { kind, at }) => Some((kind, at)),
        _ => None,
    }
}

#[test]
fn damage_is_found_at_its_first_field(rt: HostRuntime) -> Result<(), Fail> {
    for (first, second, length, fault) in &DAMAGED {
        let mut bytes = Vec::from_slice(rt.alloc(), WHOLE)?;
        edit(&mut bytes, *first);
        edit(&mut bytes, *second);
        bytes.truncate(*length);
        for _ in bytes.len()..*length {
            bytes.push(0)?;
        }
        assert_eq!(rt; fault_of(rt.alloc(), &bytes), *fault);
    }
    Ok(())
}

#[test]
fn what_is_read_is_written_again(rt: HostRuntime) -> Result<(), Fail> {
    let Ok(image) = read_image(rt.alloc(), WHOLE) else {
        return Err(Fail::from("a fault in a whole image"));
    };
    assert_eq!(rt; image.entry, 65536);
    assert_eq!(rt; image.code.as_slice(), b"\x70\x00\x4e\x40".as_slice());
    assert_eq!(rt;
        image.statics.as_slice(),
        b"\x00\x01\x02\x03\x04\x05\x06\x07".as_slice()
    );
    assert_eq!(rt; image.names.count(), 3);
    let bytes = write_image(rt.alloc(), &image)?;
    assert_eq!(rt; bytes.as_slice(), WHOLE.as_slice());
    Ok(())
}

#[test]
fn an_image_without_names_is_written(rt: HostRuntime) -> Result<(), Fail> {
    let image = Image {
        code: Vec::from_slice(rt.alloc(), b"\x70\x1c\x4e\x42\x4e\x40")?,
        statics: Vec::new(rt.alloc()),
        entry: 65536,
        names: Names::new(rt.alloc()),
    };
    let bytes = write_image(rt.alloc(), &image)?;
    assert_eq!(rt; bytes.as_slice(), SMALL.as_slice());
    Ok(())
}
