//! Images that are run, and bytes that are none.

use crate::calls::{Seen, unwritten};
use crate::inspections::{SEVEN, check, check_on, done, image_of, refused};
use orbit_cli::Status;
use std::alloc::Global;
use std::process::Abort;
use std::test::Fail;
use t_ports::memory::MemSink;

#[test]
fn an_image_is_run(rt: HostRuntime) -> Result<(), Fail> {
    let alloc = rt.alloc();
    let limited = Seen {
        out: b"7",
        err: b"step limit: 2\n",
        status: Status::StepLimit,
    };
    let none = Seen {
        out: b"",
        err: b"step limit: 0\n",
        status: Status::StepLimit,
    };
    check(
        &rt,
        alloc,
        SEVEN,
        &["run", "m0", "64", "64", "3"],
        done(b"7\nvalue 7\n"),
    )?;
    check(&rt, alloc, SEVEN, &["run", "m0", "64", "64", "2"], limited)?;
    check(&rt, alloc, SEVEN, &["run", "m0", "64", "64", "0"], none)?;
    Ok(())
}

#[test]
fn an_image_is_listed(rt: HostRuntime) -> Result<(), Fail> {
    let lines = done(
        b"00010000  701C  MOVEQ #28,D0\n00010002  4E42  TRAP #2\n00010004  4E40  TRAP #0\n",
    );
    check(&rt, rt.alloc(), SEVEN, &["list", "m0"], lines)
}

/// Where bytes of the image are replaced, by which, and the bytes behind its end.
type Damage = (usize, &'static [u8], &'static [u8]);

fn damaged(rt: &impl Abort, alloc: Global, damage: Damage) -> Result<Vec<u8>, Fail> {
    let (at, bytes, more) = damage;
    assert!(rt; at <= SEVEN.len() && bytes.len() <= SEVEN.len() - at && more.len() < 1000);
    let mut image = Vec::from_slice(alloc, &SEVEN[..at])?;
    image.extend_from_slice(bytes)?;
    image.extend_from_slice(&SEVEN[at + bytes.len()..])?;
    image.extend_from_slice(more)?;
    Ok(image)
}

fn check_refused(
    rt: &impl Abort,
    alloc: Global,
    image: &[u8],
    line: &'static [u8],
) -> Result<(), Fail> {
    let words = ["run", "m0", "64", "64", "10"];
    check(rt, alloc, image, &words, refused(line))?;
    check(rt, alloc, image, &["list", "m0"], refused(line))
}

#[test]
fn each_bit_of_the_magic(rt: HostRuntime) -> Result<(), Fail> {
    let alloc = rt.alloc();
    for at in 0..4 {
        for bit in [1u8, 2, 4, 8, 16, 32, 64, 128] {
            let mut image = Vec::from_slice(alloc, SEVEN)?;
            image[at] ^= bit;
            check_refused(&rt, alloc, &image, b"m0: I1 Magic at 0\n")?;
        }
    }
    Ok(())
}

/// Fields of the image that break their rule, one or two at a time, and what fails first.
static DAMAGED: [(Damage, &[u8]); 18] = [
    // the version
    ((4, b"\0\0\0\0", b""), b"m0: I2 Version at 4\n"),
    ((4, b"\0\0\0\x03", b""), b"m0: I2 Version at 4\n"),
    // the entry behind the code, and an odd one
    ((8, b"\0\x01\0\x06", b""), b"m0: I5 Field at 8\n"),
    ((8, b"\0\x01\0\x01", b""), b"m0: I5 Field at 8\n"),
    // the length of code
    ((12, b"\0\0\0\x04", b""), b"m0: I4 Long at 36\n"),
    ((12, b"\0\0\0\x08", b""), b"m0: I3 Short at 38\n"),
    ((12, b"\0\0\0\0", b""), b"m0: I4 Long at 32\n"),
    ((12, b"\xFF\xFF\xFF\xFF", b""), b"m0: I3 Short at 38\n"),
    ((12, b"\0\0\0\x07", b"\0"), b"m0: I5 Field at 12\n"),
    // the length of static data
    ((16, b"\0\0\0\x04", b"\0\0\0\0"), b"m0: I5 Field at 16\n"),
    // more names than there are, and bytes behind the last one
    ((20, b"\0\0\0\x01", b""), b"m0: I5 Field at 38\n"),
    ((24, b"\0\0\0\x01", b"\0"), b"m0: I5 Field at 38\n"),
    // the last field of the header
    ((28, b"\0\0\0\x01", b""), b"m0: I5 Field at 28\n"),
    // a name of no bytes, one that runs past the end, one name twice, a byte that is a blank
    (
        (20, b"\0\0\0\x01\0\0\0\x02", b"\0\0"),
        b"m0: I5 Field at 38\n",
    ),
    (
        (20, b"\0\0\0\x01\0\0\0\x03", b"\0\x02a"),
        b"m0: I5 Field at 38\n",
    ),
    (
        (20, b"\0\0\0\x02\0\0\0\x06", b"\0\x01a\0\x01a"),
        b"m0: I5 Field at 41\n",
    ),
    (
        (20, b"\0\0\0\x01\0\0\0\x03", b"\0\x01 "),
        b"m0: I5 Field at 40\n",
    ),
    // a byte behind the end
    ((38, b"", b"\0"), b"m0: I4 Long at 38\n"),
];

#[test]
fn damaged_fields(rt: HostRuntime) -> Result<(), Fail> {
    let alloc = rt.alloc();
    for (damage, line) in DAMAGED {
        let image = damaged(&rt, alloc, damage)?;
        check_refused(&rt, alloc, &image, line)?;
    }
    Ok(())
}

/// Other fields that keep their rule: an entry at the second instruction, and the names `a` and `b`. D0 is 0 at boot.
static CHANGED: [(Damage, &[u8]); 2] = [
    ((8, b"\0\x01\0\x02", b""), b"0\nvalue 0\n"),
    (
        (20, b"\0\0\0\x02\0\0\0\x06", b"\0\x01a\0\x01b"),
        b"7\nvalue 7\n",
    ),
];

#[test]
fn fields_that_keep_their_rule(rt: HostRuntime) -> Result<(), Fail> {
    let alloc = rt.alloc();
    for (damage, out) in CHANGED {
        let image = damaged(&rt, alloc, damage)?;
        let words = ["run", "m0", "64", "64", "10"];
        check(&rt, alloc, &image, &words, done(out))?;
    }
    Ok(())
}

/// The line of the image's first so many bytes, by their number.
static CUT: [&[u8]; 38] = [
    b"m0: I1 Magic at 0\n",
    b"m0: I1 Magic at 0\n",
    b"m0: I1 Magic at 0\n",
    b"m0: I1 Magic at 0\n",
    b"m0: I3 Short at 4\n",
    b"m0: I3 Short at 5\n",
    b"m0: I3 Short at 6\n",
    b"m0: I3 Short at 7\n",
    b"m0: I3 Short at 8\n",
    b"m0: I3 Short at 9\n",
    b"m0: I3 Short at 10\n",
    b"m0: I3 Short at 11\n",
    b"m0: I3 Short at 12\n",
    b"m0: I3 Short at 13\n",
    b"m0: I3 Short at 14\n",
    b"m0: I3 Short at 15\n",
    b"m0: I3 Short at 16\n",
    b"m0: I3 Short at 17\n",
    b"m0: I3 Short at 18\n",
    b"m0: I3 Short at 19\n",
    b"m0: I3 Short at 20\n",
    b"m0: I3 Short at 21\n",
    b"m0: I3 Short at 22\n",
    b"m0: I3 Short at 23\n",
    b"m0: I3 Short at 24\n",
    b"m0: I3 Short at 25\n",
    b"m0: I3 Short at 26\n",
    b"m0: I3 Short at 27\n",
    b"m0: I3 Short at 28\n",
    b"m0: I3 Short at 29\n",
    b"m0: I3 Short at 30\n",
    b"m0: I3 Short at 31\n",
    b"m0: I3 Short at 32\n",
    b"m0: I3 Short at 33\n",
    b"m0: I3 Short at 34\n",
    b"m0: I3 Short at 35\n",
    b"m0: I3 Short at 36\n",
    b"m0: I3 Short at 37\n",
];

#[test]
fn every_truncation(rt: HostRuntime) -> Result<(), Fail> {
    for length in 0..38 {
        check(
            &rt,
            rt.alloc(),
            &SEVEN[..length],
            &["run", "m0", "64", "64", "3"],
            refused(CUT[length]),
        )?;
    }
    Ok(())
}

/// Code whose run ends without a value within 1,000 instructions, and its line and status.
static REPLACED: [(&[u8], &[u8], Status); 7] = [
    // ILLEGAL, TRAP #15, DIVSL.L D1,D2:D0 by zero
    (
        b"\x4A\xFC\x4E\x71\x4E\x71",
        b"machine stop Illegal at 00010000\n",
        Status::MachineStop,
    ),
    (
        b"\x4E\x4F\x4E\x71\x4E\x71",
        b"machine stop BadService at 00010000\n",
        Status::MachineStop,
    ),
    (
        b"\x4C\x41\x08\x02\x4E\x71",
        b"machine stop ZeroDivide at 00010000\n",
        Status::MachineStop,
    ),
    // JMP $00010001.L, MOVE.L $00000000.L,D0
    (
        b"\x4E\xF9\x00\x01\x00\x01",
        b"machine stop OddAddress at 00010001\n",
        Status::MachineStop,
    ),
    (
        b"\x20\x39\x00\x00\x00\x00",
        b"machine stop BadAddress at 00010000\n",
        Status::MachineStop,
    ),
    // NOP up to the end of code, a branch to itself
    (
        b"\x4E\x71\x4E\x71\x4E\x71",
        b"machine stop BadAddress at 00010006\n",
        Status::MachineStop,
    ),
    (
        b"\x60\xFE\x4E\x71\x4E\x71",
        b"step limit: 1000\n",
        Status::StepLimit,
    ),
];

/// Runs an image of some code that puts nothing and has no value.
fn check_end(
    rt: &impl Abort,
    alloc: Global,
    (code, err, status): (&[u8], &'static [u8], Status),
    steps: &str,
) -> Result<(), Fail> {
    let image = image_of(rt, alloc, code)?;
    let seen = Seen {
        out: b"",
        err,
        status,
    };
    check(rt, alloc, &image, &["run", "m0", "64", "64", steps], seen)
}

#[test]
fn replaced_code(rt: HostRuntime) -> Result<(), Fail> {
    for row in REPLACED {
        check_end(&rt, rt.alloc(), row, "1000")?;
    }
    Ok(())
}

#[test]
fn an_image_that_is_not_there(rt: HostRuntime) -> Result<(), Fail> {
    let alloc = rt.alloc();
    let seen = Seen {
        out: b"",
        err: b"cannot read: m1\n",
        status: Status::FetchFault,
    };
    check(&rt, alloc, SEVEN, &["list", "m1"], seen)?;
    check(&rt, alloc, SEVEN, &["run", "m1", "64", "64", "3"], seen)
}

#[test]
fn a_listing_without_room(rt: HostRuntime) -> Result<(), Fail> {
    let alloc = rt.alloc();
    let mut out = MemSink::new(alloc, 14, Vec::new(alloc))?;
    let listed = unwritten(b"00010000  701C");
    check_on(&rt, alloc, SEVEN, &["list", "m0"], &mut out, listed)
}

/// Code that puts -32, 31 and 7 and halts with 7.
static THREE_PUTS: &[u8] = b"\x70\x80\x4E\x42\x70\x7C\x4E\x42\x70\x1C\x4E\x42\x4E\x40";

/// The number of a put that fails, how many bytes it takes, and what `out` holds then. The fourth put is the first one of the
/// value's line.
static FAILED_PUTS: [(u32, u32, &[u8]); 9] = [
    (1, 0, b""),
    (1, 2, b"-3"),
    (1, 3, b"-32"),
    (2, 0, b"-32"),
    (2, 1, b"-323"),
    (2, 2, b"-3231"),
    (3, 0, b"-3231"),
    (3, 1, b"-32317"),
    (4, 0, b"-32317"),
];

#[test]
fn each_put_that_fails(rt: HostRuntime) -> Result<(), Fail> {
    let alloc = rt.alloc();
    let image = image_of(&rt, alloc, THREE_PUTS)?;
    let words = ["run", "m0", "64", "64", "7"];
    check(&rt, alloc, &image, &words, done(b"-32317\nvalue 7\n"))?;
    for (call, taken, held) in FAILED_PUTS {
        let fail = Vec::from_slice(alloc, &[(call, taken)])?;
        let mut out = MemSink::new(alloc, 1000, fail)?;
        check_on(&rt, alloc, &image, &words, &mut out, unwritten(held))?;
    }
    Ok(())
}

/// How much room `out` has for the line of the value, and what it holds when that is used up.
static ROOMS: [(usize, &[u8]); 9] = [
    (6, b"-32317"),
    (7, b"-32317\n"),
    (8, b"-32317\nv"),
    (9, b"-32317\nva"),
    (10, b"-32317\nval"),
    (11, b"-32317\nvalu"),
    (12, b"-32317\nvalue"),
    (13, b"-32317\nvalue "),
    (14, b"-32317\nvalue 7"),
];

#[test]
fn the_line_of_a_value_without_room(rt: HostRuntime) -> Result<(), Fail> {
    let alloc = rt.alloc();
    let image = image_of(&rt, alloc, THREE_PUTS)?;
    let words = ["run", "m0", "64", "64", "7"];
    for (room, held) in ROOMS {
        let mut out = MemSink::new(alloc, room, Vec::new(alloc))?;
        check_on(&rt, alloc, &image, &words, &mut out, unwritten(held))?;
    }
    Ok(())
}

/// Code whose run ends otherwise than by a value, and its line and status.
static ENDS: [(&[u8], &[u8], Status); 4] = [
    (
        b"\x70\x08\x4E\x44",
        b"heap full: asked 8 left 0\n",
        Status::HeapFull,
    ),
    (
        b"\x70\x10\x72\x08\x74\x01\x4E\x44",
        b"stack full: asked 16 left 8\n",
        Status::StackFull,
    ),
    (
        b"\x70\x0A\x4E\x43",
        b"fault 10 DeadEscape\n",
        Status::SourceFault,
    ),
    (
        b"\x70\x0F\x72\xEC\x4E\x43",
        b"fault 15 User -5\n",
        Status::SourceFault,
    ),
];

#[test]
fn ends_without_a_value(rt: HostRuntime) -> Result<(), Fail> {
    for row in ENDS {
        check_end(&rt, rt.alloc(), row, "4")?;
    }
    Ok(())
}

/// An image whose run ends at once with a value. Its static data are the symbol of the second name, and its names `ab` and `c`.
fn image_of_value(alloc: Global, word: u32) -> Result<Vec<u8>, Fail> {
    let mut bytes = Vec::from_slice(
        alloc,
        b"ORBI\0\0\0\x01\0\x01\0\0\0\0\0\x08\0\0\0\x10\0\0\0\x02\0\0\0\x07\0\0\0\0\x20\x3C",
    )?;
    bytes.extend_from_slice(&word.to_be_bytes())?;
    bytes.extend_from_slice(b"\x4E\x40\0\0\0\x19\0\0\0\x04\0\0\0\0\0\0\0\0\0\x02ab\0\x01c")?;
    Ok(bytes)
}

/// The word of a value, and the value's line.
static VALUES: [(u32, &[u8]); 9] = [
    (0x2000_0002, b"value c\n"),
    (0x0000_2001, b"value #\\space\n"),
    (0x0000_0A01, b"value #\\newline\n"),
    (0x0000_6101, b"value #\\a\n"),
    (0x0000_7F01, b"value #\\127\n"),
    (0x0000_0001, b"value #\\000\n"),
    (0x0000_0005, b"value ()\n"),
    (0x0000_0009, b"value #t\n"),
    (0x4000_0003, b"value {Pair}\n"),
];

#[test]
fn values_that_are_no_fixnums(rt: HostRuntime) -> Result<(), Fail> {
    let alloc = rt.alloc();
    for (word, line) in VALUES {
        let image = image_of_value(alloc, word)?;
        let words = ["run", "m0", "64", "64", "2"];
        check(&rt, alloc, &image, &words, done(line))?;
    }
    Ok(())
}
