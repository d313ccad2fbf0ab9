//! The listing of one instruction of every row, and of every mode of an operand. Each stands alone at the start of the code. The
//! texts are written from the format of a listing and the processor's manual.

use crate::inspections::{check, done, image_of};
use std::alloc::Global;
use std::process::Abort;
use std::test::Fail;

static MOVES: [(&[u8], &[u8]); 34] = [
    (b"\x22\x00", b"00010000  2200  MOVE.L D0,D1\n"),
    (b"\x20\x0A", b"00010000  200A  MOVE.L A2,D0\n"),
    (b"\x20\x13", b"00010000  2013  MOVE.L (A3),D0\n"),
    (b"\x20\x1B", b"00010000  201B  MOVE.L (A3)+,D0\n"),
    (b"\x20\x23", b"00010000  2023  MOVE.L -(A3),D0\n"),
    (
        b"\x22\x28\x00\x08",
        b"00010000  2228 0008  MOVE.L 8(A0),D1\n",
    ),
    (
        b"\x22\x28\xFF\xFE",
        b"00010000  2228 FFFE  MOVE.L -2(A0),D1\n",
    ),
    (
        b"\x20\x30\x1C\x04",
        b"00010000  2030 1C04  MOVE.L 4(A0,D1.L*4),D0\n",
    ),
    (
        b"\x20\x37\xA0\xFF",
        b"00010000  2037 A0FF  MOVE.L -1(A7,A2.W*1),D0\n",
    ),
    (
        b"\x20\x39\x20\x00\x00\x00",
        b"00010000  2039 2000 0000  MOVE.L $20000000.L,D0\n",
    ),
    (
        b"\x20\x3C\xFF\xFF\xFF\xFF",
        b"00010000  203C FFFF FFFF  MOVE.L #-1,D0\n",
    ),
    (b"\x22\x80", b"00010000  2280  MOVE.L D0,(A1)\n"),
    (b"\x22\xC0", b"00010000  22C0  MOVE.L D0,(A1)+\n"),
    (b"\x2F\x00", b"00010000  2F00  MOVE.L D0,-(A7)\n"),
    (
        b"\x2D\x40\x00\x0C",
        b"00010000  2D40 000C  MOVE.L D0,12(A6)\n",
    ),
    (
        b"\x21\x80\x22\x00",
        b"00010000  2180 2200  MOVE.L D0,0(A0,D2.W*2)\n",
    ),
    (
        b"\x23\xC0\x40\x00\x00\x00",
        b"00010000  23C0 4000 0000  MOVE.L D0,$40000000.L\n",
    ),
    (
        b"\x2F\x3C\x00\x00\x00\x05",
        b"00010000  2F3C 0000 0005  MOVE.L #5,-(A7)\n",
    ),
    (
        b"\x23\xF9\x20\x00\x00\x00\x40\x00\xAB\xCD",
        b"00010000  23F9 2000 0000 4000 ABCD  MOVE.L $20000000.L,$4000ABCD.L\n",
    ),
    (b"\x10\x3C\x00\xFF", b"00010000  103C 00FF  MOVE.B #-1,D0\n"),
    (
        b"\x10\xBC\x00\x7F",
        b"00010000  10BC 007F  MOVE.B #127,(A0)\n",
    ),
    (b"\x10\x01", b"00010000  1001  MOVE.B D1,D0\n"),
    (b"\x12\xD8", b"00010000  12D8  MOVE.B (A0)+,(A1)+\n"),
    (
        b"\x20\x79\x20\x00\x00\x00",
        b"00010000  2079 2000 0000  MOVEA.L $20000000.L,A0\n",
    ),
    (b"\x22\x43", b"00010000  2243  MOVEA.L D3,A1\n"),
    (b"\x70\x1C", b"00010000  701C  MOVEQ #28,D0\n"),
    (b"\x7E\x80", b"00010000  7E80  MOVEQ #-128,D7\n"),
    (b"\x4F\xEF\x00\x0C", b"00010000  4FEF 000C  LEA 12(A7),A7\n"),
    (b"\x43\xD0", b"00010000  43D0  LEA (A0),A1\n"),
    (
        b"\x45\xF0\x1E\x08",
        b"00010000  45F0 1E08  LEA 8(A0,D1.L*8),A2\n",
    ),
    (
        b"\x47\xF9\x00\x01\x00\x00",
        b"00010000  47F9 0001 0000  LEA $00010000.L,A3\n",
    ),
    (b"\xC3\x42", b"00010000  C342  EXG D1,D2\n"),
    (b"\xC1\x4F", b"00010000  C14F  EXG A0,A7\n"),
    (b"\xC7\x8C", b"00010000  C78C  EXG D3,A4\n"),
];

static ARITHMETIC: [(&[u8], &[u8]); 32] = [
    (b"\xD0\x81", b"00010000  D081  ADD.L D1,D0\n"),
    (b"\xD4\x88", b"00010000  D488  ADD.L A0,D2\n"),
    (
        b"\xD0\xBC\x00\x00\x00\x64",
        b"00010000  D0BC 0000 0064  ADD.L #100,D0\n",
    ),
    (b"\x9E\x90", b"00010000  9E90  SUB.L (A0),D7\n"),
    (b"\xC0\xA1", b"00010000  C0A1  AND.L -(A1),D0\n"),
    (
        b"\xC6\xBC\xFF\xFF\xFF\xFC",
        b"00010000  C6BC FFFF FFFC  AND.L #-4,D3\n",
    ),
    (b"\x8C\x85", b"00010000  8C85  OR.L D5,D6\n"),
    (b"\xB2\x8D", b"00010000  B28D  CMP.L A5,D1\n"),
    (
        b"\xD9\xFC\x00\x00\x00\x08",
        b"00010000  D9FC 0000 0008  ADDA.L #8,A4\n",
    ),
    (b"\x9F\xC0", b"00010000  9FC0  SUBA.L D0,A7\n"),
    (b"\xB9\xCE", b"00010000  B9CE  CMPA.L A6,A4\n"),
    (b"\x50\x8F", b"00010000  508F  ADDQ.L #8,A7\n"),
    (b"\x52\x80", b"00010000  5280  ADDQ.L #1,D0\n"),
    (b"\x57\x90", b"00010000  5790  SUBQ.L #3,(A0)\n"),
    (
        b"\x51\xAE\xFF\xFC",
        b"00010000  51AE FFFC  SUBQ.L #8,-4(A6)\n",
    ),
    (b"\x4A\x80", b"00010000  4A80  TST.L D0\n"),
    (b"\x4A\x9F", b"00010000  4A9F  TST.L (A7)+\n"),
    (b"\x42\xA7", b"00010000  42A7  CLR.L -(A7)\n"),
    (
        b"\x42\xB9\x20\x00\x00\x08",
        b"00010000  42B9 2000 0008  CLR.L $20000008.L\n",
    ),
    (
        b"\x06\x80\xFF\xFF\xFF\xFB",
        b"00010000  0680 FFFF FFFB  ADDI.L #-5,D0\n",
    ),
    (
        b"\x06\xA8\x00\x00\x00\x01\x00\x08",
        b"00010000  06A8 0000 0001 0008  ADDI.L #1,8(A0)\n",
    ),
    (
        b"\x02\x82\x00\x00\x00\x03",
        b"00010000  0282 0000 0003  ANDI.L #3,D2\n",
    ),
    (
        b"\x0C\x80\x00\x00\x00\x05",
        b"00010000  0C80 0000 0005  CMPI.L #5,D0\n",
    ),
    (
        b"\x0C\x98\x7F\xFF\xFF\xFF",
        b"00010000  0C98 7FFF FFFF  CMPI.L #2147483647,(A0)+\n",
    ),
    (
        b"\x0C\x87\x80\x00\x00\x00",
        b"00010000  0C87 8000 0000  CMPI.L #-2147483648,D7\n",
    ),
    (b"\xE1\x81", b"00010000  E181  ASL.L #8,D1\n"),
    (b"\xE3\x80", b"00010000  E380  ASL.L #1,D0\n"),
    (b"\xE4\x80", b"00010000  E480  ASR.L #2,D0\n"),
    (b"\x4C\x01\x08\x00", b"00010000  4C01 0800  MULS.L D1,D0\n"),
    (
        b"\x4C\x3C\x78\x00\x00\x00\x00\x0A",
        b"00010000  4C3C 7800 0000 000A  MULS.L #10,D7\n",
    ),
    (
        b"\x4C\x41\x08\x02",
        b"00010000  4C41 0802  DIVSL.L D1,D2:D0\n",
    ),
    (
        b"\x4C\x50\x38\x07",
        b"00010000  4C50 3807  DIVSL.L (A0),D7:D3\n",
    ),
];

static CONTROL: [(&[u8], &[u8]); 23] = [
    (b"\x4E\xD1", b"00010000  4ED1  JMP (A1)\n"),
    (b"\x4E\xE8\x00\x04", b"00010000  4EE8 0004  JMP 4(A0)\n"),
    (
        b"\x4E\xF0\x98\x02",
        b"00010000  4EF0 9802  JMP 2(A0,A1.L*1)\n",
    ),
    (
        b"\x4E\xF9\x00\x01\x00\x00",
        b"00010000  4EF9 0001 0000  JMP $00010000.L\n",
    ),
    (b"\x4E\x40", b"00010000  4E40  TRAP #0\n"),
    (b"\x4E\x4F", b"00010000  4E4F  TRAP #15\n"),
    (b"\x4E\x71", b"00010000  4E71  NOP\n"),
    (b"\x4A\xFC", b"00010000  4AFC  ILLEGAL\n"),
    (b"\x60\xFE", b"00010000  60FE  BRA.B $00010000\n"),
    (b"\x62\x10", b"00010000  6210  BHI.B $00010012\n"),
    (b"\x63\x80", b"00010000  6380  BLS.B $0000FF82\n"),
    (b"\x64\x7F", b"00010000  647F  BCC.B $00010081\n"),
    (
        b"\x65\x00\x01\x00",
        b"00010000  6500 0100  BCS.W $00010102\n",
    ),
    (b"\x66\x0E", b"00010000  660E  BNE.B $00010010\n"),
    (
        b"\x67\x00\xFF\xFE",
        b"00010000  6700 FFFE  BEQ.W $00010000\n",
    ),
    (
        b"\x68\x00\x7F\xFF",
        b"00010000  6800 7FFF  BVC.W $00018001\n",
    ),
    (
        b"\x69\xFF\x00\x01\x00\x00",
        b"00010000  69FF 0001 0000  BVS.L $00020002\n",
    ),
    (
        b"\x6A\xFF\xFF\xFE\xFF\xFE",
        b"00010000  6AFF FFFE FFFE  BPL.L $00000000\n",
    ),
    (
        b"\x6B\xFF\xFF\xFE\xFF\xFC",
        b"00010000  6BFF FFFE FFFC  BMI.L $FFFFFFFE\n",
    ),
    (b"\x6C\x02", b"00010000  6C02  BGE.B $00010004\n"),
    (
        b"\x6D\x00\x80\x00",
        b"00010000  6D00 8000  BLT.W $00008002\n",
    ),
    (b"\x6E\x04", b"00010000  6E04  BGT.B $00010006\n"),
    (
        b"\x6F\xFF\x00\x00\x00\x00",
        b"00010000  6FFF 0000 0000  BLE.L $00010002\n",
    ),
];

static WORDS: [(&[u8], &[u8]); 6] = [
    (b"\x00\x00", b"00010000  0000  .WORD 0000\n"),
    (b"\xFF\xFF", b"00010000  FFFF  .WORD FFFF\n"),
    (b"\x61\xFE", b"00010000  61FE  .WORD 61FE\n"),
    (b"\x4A\xFB", b"00010000  4AFB  .WORD 4AFB\n"),
    (b"\x4E\x50", b"00010000  4E50  .WORD 4E50\n"),
    (b"\x20\x3C", b"00010000  203C  .WORD 203C\n"),
];

fn check_listed(
    rt: &impl Abort,
    alloc: Global,
    code: &[u8],
    text: &'static [u8],
) -> Result<(), Fail> {
    let image = image_of(rt, alloc, code)?;
    check(rt, alloc, &image, &["list", "m0"], done(text))
}

#[test]
fn moves(rt: HostRuntime) -> Result<(), Fail> {
    for (code, text) in MOVES {
        check_listed(&rt, rt.alloc(), code, text)?;
    }
    Ok(())
}

#[test]
fn arithmetic_and_logic(rt: HostRuntime) -> Result<(), Fail> {
    for (code, text) in ARITHMETIC {
        check_listed(&rt, rt.alloc(), code, text)?;
    }
    Ok(())
}

#[test]
fn jumps_branches_and_services(rt: HostRuntime) -> Result<(), Fail> {
    for (code, text) in CONTROL {
        check_listed(&rt, rt.alloc(), code, text)?;
    }
    Ok(())
}

#[test]
fn words_that_begin_no_instruction(rt: HostRuntime) -> Result<(), Fail> {
    for (code, text) in WORDS {
        check_listed(&rt, rt.alloc(), code, text)?;
    }
    Ok(())
}

// Addresses go on behind each line; a word behind which the code ends too early is a line of its own.
#[test]
fn one_line_after_the_other(rt: HostRuntime) -> Result<(), Fail> {
    check_listed(
        &rt,
        rt.alloc(),
        b"\x23\xF9\x20\x00\x00\x00\x40\x00\x00\x00\x66\xF4\xFF\xFF\x20\x39\x20\x00",
        b"00010000  23F9 2000 0000 4000 0000  MOVE.L $20000000.L,$40000000.L\n0001000A  66F4  BNE.B $00010000\n0001000C  FFFF  .WORD FFFF\n0001000E  2039  .WORD 2039\n00010010  2000  MOVE.L D0,D0\n",
    )
}
