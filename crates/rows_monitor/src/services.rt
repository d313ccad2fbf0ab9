//! One TRAP behind three loads of D0, D1 and D2.

use crate::runs::load;
use m68020_step::Why;
use orbit_monitor::{End, run};
use std::alloc::Global;
use std::test::Fail;
use t_base::{Face, Fault, Memory, Name};
use t_ports::memory::MemSink;

/// Objects from 20000000 on.
static STATICS: &[u8; 144] =
    b"\x00\x00\x00\x15\x00\x00\x00\x08hi\x00\x00\x00\x00\x00\x00\x00\x00\x00\x19\x00\x00\x00\x04\x00\x00\x00\x00\x00\x00\x00\x00\x00\x00\x00\x19\x00\x00\x00\x08\x00\x00\x00\x00\x00\x00\x00\x00\x00\x00\x00\x11\x00\x00\x00\x00\x00\x00\x00\x1d\x00\x00\x00\x00\x00\x00\x00\x29\x00\x00\x00\x00\x00\x00\x00\x2d\x00\x00\x00\x00\x00\x00\x00\x21\x00\x00\x00\x00\x00\x00\x00\x25\x00\x00\x00\x00\x00\x00\x00\x35\x00\x00\x00\x00\x00\x00\x00\x15\x00\x00\x00\x00\x00\x00\x00\x15\x00\x00\x00\x64\x00\x00\x00\x00\x00\x00\x00\x00\x00\x00\x00\x15\xff\xff\xff\xfc\x00\x00\x00\x15\x00\x00\x00\x19";

/// D0, D1 and D2.
type Operands = (u32, u32, u32);

fn code_of(alloc: Global, operands: Operands, vector: u8) -> Result<Vec<u8>, Memory> {
    let (d0, d1, d2) = operands;
    let mut code = Vec::new(alloc);
    code.extend_from_slice(b"\x20\x3c")?;
    code.extend_from_slice(&d0.to_be_bytes())?;
    code.extend_from_slice(b"\x22\x3c")?;
    code.extend_from_slice(&d1.to_be_bytes())?;
    code.extend_from_slice(b"\x24\x3c")?;
    code.extend_from_slice(&d2.to_be_bytes())?;
    code.push(0x4E)?;
    code.push(0x40 | vector & 15)?;
    Ok(code)
}

/// The end of the TRAP, and whether these bytes were put.
fn comes_to(
    alloc: Global,
    operands: Operands,
    vector: u8,
    put: &[u8],
) -> Result<(End, bool), Fail> {
    let code = code_of(alloc, operands, vector)?;
    let mut program = load(alloc, &code, STATICS)?;
    let mut out = MemSink::new(alloc, 99, Vec::new(alloc))?;
    let end = run(&mut program, 4, &mut out);
    let last = program.last_byte() == put.last().copied();
    Ok((end, out.bytes() == put && last))
}

static FACES: [(u32, Face); 17] = [
    (0x0000_001C, Face::Fix(7)),
    (0xFFFF_FFFC, Face::Fix(-1)),
    (0x8000_0000, Face::Fix(-536_870_912)),
    (0x0000_0005, Face::Nil),
    (0x0000_0009, Face::True),
    (0x0000_0001, Face::Char(0)),
    (0x0000_7F01, Face::Char(127)),
    (0x2000_0012, Face::Symbol(Name(1))),
    (0xFFFF_FFFF, Face::Kind(1)),
    (0x2000_0032, Face::Kind(2)),
    (0x2000_0002, Face::Kind(3)),
    (0x2000_003A, Face::Kind(4)),
    (0x2000_0042, Face::Kind(4)),
    (0x2000_004A, Face::Kind(4)),
    (0x2000_0052, Face::Kind(5)),
    (0x2000_005A, Face::Kind(6)),
    (0x4000_0003, Face::Kind(1)),
];

#[test]
fn every_face(rt: HostRuntime) -> Result<(), Fail> {
    for (word, face) in &FACES {
        let (end, put) = comes_to(rt.alloc(), (*word, 0, 0), 0, b"")?;
        assert_eq!(rt; end, End::Done(*face));
        assert!(rt; put);
    }
    Ok(())
}

#[test]
fn a_symbol_has_its_name(rt: HostRuntime) -> Result<(), Fail> {
    let code = code_of(rt.alloc(), (0x2000_0012, 0, 0), 0)?;
    let mut program = load(rt.alloc(), &code, STATICS)?;
    let mut out = MemSink::new(rt.alloc(), 9, Vec::new(rt.alloc()))?;
    let End::Done(Face::Symbol(name)) = run(&mut program, 4, &mut out) else {
        return Err(Fail::from("no symbol"));
    };
    assert_eq!(rt; program.name_of(name), b"x".as_slice());
    Ok(())
}

/// What a service puts before the program goes on.
static PUTS: [(u8, u32, &[u8]); 7] = [
    (1, 0x0000_4101, b"A"),
    (1, 0x0000_7F01, b"\x7f"),
    (2, 0x0000_0000, b"0"),
    (2, 0x7FFF_FFFC, b"536870911"),
    (2, 0x8000_0000, b"-536870912"),
    (5, 0x2000_0002, b"hi"),
    (5, 0x2000_006A, b""),
];

#[test]
fn every_put(rt: HostRuntime) -> Result<(), Fail> {
    for (vector, word, bytes) in &PUTS {
        let (end, put) = comes_to(rt.alloc(), (*word, 0, 0), *vector, bytes)?;
        assert_eq!(rt; end, End::Steps);
        assert!(rt; put);
    }
    Ok(())
}

/// The sink counts the empty put and fails at it.
#[test]
fn an_empty_string_is_one_put(rt: HostRuntime) -> Result<(), Fail> {
    let alloc = rt.alloc();
    let code = code_of(alloc, (0x2000_006A, 0, 0), 5)?;
    let mut program = load(alloc, &code, STATICS)?;
    let mut fail: Vec<(u32, u32)> = Vec::new(alloc);
    fail.push((1, 0))?;
    let mut out = MemSink::new(alloc, 99, fail)?;
    assert_eq!(rt; run(&mut program, 4, &mut out), End::Sink);
    assert_eq!(rt; out.bytes(), b"".as_slice());
    assert_eq!(rt; program.last_byte(), None);
    Ok(())
}

/// The fault that each number raises, from 1 on.
static FAULTS: [Fault; 16] = [
    Fault::NotProcedure,
    Fault::WrongCount,
    Fault::NotFixnum,
    Fault::NotPair,
    Fault::NotVector,
    Fault::IndexRange,
    Fault::FixnumOverflow,
    Fault::DivideByZero,
    Fault::Unbound,
    Fault::DeadEscape,
    Fault::NotHandled,
    Fault::NotChar,
    Fault::NotString,
    Fault::CharRange,
    Fault::User(-1),
    Fault::NotSymbol,
];

#[test]
fn every_fault(rt: HostRuntime) -> Result<(), Fail> {
    for i in 0..16u32 {
        let (end, put) = comes_to(rt.alloc(), (i + 1, 0xFFFF_FFFC, 0), 3, b"")?;
        assert_eq!(rt; end, End::Fault(FAULTS[i as usize]));
        assert!(rt; put);
    }
    Ok(())
}

#[test]
fn heap_and_stack_are_full(rt: HostRuntime) -> Result<(), Fail> {
    for (which, stack) in [(0, false), (1, true)] {
        let (end, put) = comes_to(rt.alloc(), (24, 8, which), 4, b"")?;
        let (asked, left) = (24, 8);
        assert_eq!(rt; end, End::Full { stack, asked, left });
        assert!(rt; put);
    }
    Ok(())
}

/// Operands that are not of their kind, and numbers without a service.
static BAD: [(u8, Operands); 27] = [
    // Unbound, a character past 127, a character of two bytes, a bare header
    (0, (0x0000_000D, 0, 0)),
    (0, (0x0000_8001, 0, 0)),
    (0, (0x0001_0001, 0, 0)),
    (0, (0x0000_0011, 0, 0)),
    // a cell, a place past the names, a symbol without its second word
    (0, (0x2000_0062, 0, 0)),
    (0, (0x2000_0022, 0, 0)),
    (0, (0x2000_008E, 0, 0)),
    // in code, past the static words, in no region
    (0, (0x0001_0002, 0, 0)),
    (0, (0x2000_0092, 0, 0)),
    (0, (0x0000_0002, 0, 0)),
    (0, (0xFFFF_FFFE, 0, 0)),
    (1, (0x0000_8001, 0, 0)),
    (1, (0x0000_4100, 0, 0)),
    (1, (0x0000_0005, 0, 0)),
    (2, (0x0000_0005, 0, 0)),
    (2, (0x2000_0002, 0, 0)),
    (3, (0, 0, 0)),
    (3, (17, 0, 0)),
    (3, (15, 5, 0)),
    (4, (24, 8, 2)),
    // a symbol; too long, a negative length, a length that is no fixnum; a fixnum
    (5, (0x2000_0012, 0, 0)),
    (5, (0x2000_0072, 0, 0)),
    (5, (0x2000_0082, 0, 0)),
    (5, (0x2000_008A, 0, 0)),
    (5, (0x0000_001C, 0, 0)),
    (6, (0, 0, 0)),
    (15, (0, 0, 0)),
];

#[test]
fn every_bad_service(rt: HostRuntime) -> Result<(), Fail> {
    for (vector, operands) in &BAD {
        let (end, put) = comes_to(rt.alloc(), *operands, *vector, b"")?;
        let (why, at) = (Why::BadService, 0x1_0012);
        assert_eq!(rt; end, End::Stop { why, at });
        assert!(rt; put);
    }
    Ok(())
}
