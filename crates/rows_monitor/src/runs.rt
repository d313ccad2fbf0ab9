//! Small programs, instruction by instruction.

use image_file::Image;
use m68020_step::{Sizes, Why};
use orbit_monitor::{Boot, End, boot, run};
use std::alloc::Global;
use std::test::Fail;
use t_base::{Face, Names};
use t_ports::memory::MemSink;

const SIZES: Sizes = Sizes {
    heap: 64,
    stack: 64,
};

/// A program with the names `car` and `x`.
pub fn load(alloc: Global, code: &[u8], statics: &[u8]) -> Result<Boot, Fail> {
    if code.len() % 2 != 0 || code.len() < 2 || 1000 < code.len() {
        return Err(Fail::from("no code"));
    }
    if statics.len() % 8 != 0 || 1000 < statics.len() {
        return Err(Fail::from("no static words"));
    }
    let mut names = Names::new(alloc);
    names.intern(b"car")?;
    if names.count() < 9 {
        names.intern(b"x")?;
    }
    let image = Image {
        code: code.to_vec(alloc)?,
        statics: statics.to_vec(alloc)?,
        entry: 0x1_0000,
        names,
    };
    Ok(boot(alloc, &image, SIZES)?)
}

/// Puts the fixnum 7 and halts with it.
static SEVEN: &[u8; 6] = b"\x70\x1c\x4e\x42\x4e\x40";

#[test]
fn a_fixnum_is_put_and_is_the_value(rt: HostRuntime) -> Result<(), Fail> {
    let mut program = load(rt.alloc(), SEVEN, b"")?;
    let mut out = MemSink::new(rt.alloc(), 99, Vec::new(rt.alloc()))?;
    assert_eq!(rt; run(&mut program, 0, &mut out), End::Steps);
    assert_eq!(rt; program.last_byte(), None);
    assert_eq!(rt; run(&mut program, 2, &mut out), End::Steps);
    assert_eq!(rt; out.bytes(), b"7".as_slice());
    assert_eq!(rt; run(&mut program, 1, &mut out), End::Done(Face::Fix(7)));
    assert_eq!(rt; run(&mut program, 9, &mut out), End::Done(Face::Fix(7)));
    assert_eq!(rt; out.bytes(), b"7".as_slice());
    assert_eq!(rt; program.last_byte(), Some(b'7'));
    Ok(())
}

/// Puts A, then B, and halts with the fixnum 5.
static TWO_PUTS: &[u8; 20] =
    b"\x20\x3c\x00\x00\x41\x01\x4e\x41\x20\x3c\x00\x00\x42\x01\x4e\x41\x70\x14\x4e\x40";

#[test]
fn a_run_goes_on_behind_a_put_that_failed(rt: HostRuntime) -> Result<(), Fail> {
    let mut program = load(rt.alloc(), TWO_PUTS, b"")?;
    let mut fail: Vec<(u32, u32)> = Vec::new(rt.alloc());
    fail.push((1, 0))?;
    let mut out = MemSink::new(rt.alloc(), 99, fail)?;
    assert_eq!(rt; run(&mut program, 9, &mut out), End::Sink);
    assert_eq!(rt; program.last_byte(), None);
    assert_eq!(rt; run(&mut program, 3, &mut out), End::Steps);
    assert_eq!(rt; run(&mut program, 1, &mut out), End::Done(Face::Fix(5)));
    assert_eq!(rt; out.bytes(), b"B".as_slice());
    assert_eq!(rt; program.last_byte(), Some(b'B'));
    Ok(())
}

/// Code of one instruction and fillers, and why it stops at its address.
static STOPS: [(&[u8; 6], Why); 3] = [
    (b"\x4a\xfc\x4e\x71\x4e\x71", Why::Illegal),
    (b"\x4e\x4f\x4e\x71\x4e\x71", Why::BadService),
    (b"\x4c\x41\x08\x02\x4e\x71", Why::ZeroDivide),
];

#[test]
fn a_stop_has_the_address_of_its_instruction(rt: HostRuntime) -> Result<(), Fail> {
    for (code, why) in &STOPS {
        let mut program = load(rt.alloc(), code.as_slice(), b"")?;
        let mut out = MemSink::new(rt.alloc(), 9, Vec::new(rt.alloc()))?;
        let end = run(&mut program, 9, &mut out);
        let at = 0x1_0000;
        assert_eq!(rt; end, End::Stop { why: *why, at });
    }
    Ok(())
}
