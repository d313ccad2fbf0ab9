//! Spellings from an assembler, both ways.

use m68020_code::{Cond, Ea, Index, Instr, Width, decode, encode};
use std::process::Abort;

fn both_ways(rt: &impl Abort, i: Instr, bytes: &[u8]) {
    let mut out = [0u8; 10];
    let len = encode(&i, &mut out);
    assert_eq!(rt; len, Some(bytes.len()));
    assert!(rt; out.starts_with(bytes));
    assert_eq!(rt; decode(bytes), Some((i, bytes.len())));
}

#[test]
fn moves_and_arithmetic(rt: HostRuntime) {
    both_ways(
        &rt,
        Instr::MoveL {
            from: Ea::D(0),
            to: Ea::Pre(7),
        },
        &[0x2F, 0x00],
    );
    both_ways(
        &rt,
        Instr::MoveL {
            from: Ea::Disp(0, 8),
            to: Ea::D(1),
        },
        &[0x22, 0x28, 0x00, 0x08],
    );
    both_ways(
        &rt,
        Instr::MoveL {
            from: Ea::Index {
                base: 0,
                x: Index {
                    address: false,
                    reg: 1,
                    long: true,
                    scale: 2,
                },
                disp: 4,
            },
            to: Ea::D(0),
        },
        &[0x20, 0x30, 0x1C, 0x04],
    );
    both_ways(
        &rt,
        Instr::MoveaL {
            from: Ea::Abs(0x2000_0000),
            to: 0,
        },
        &[0x20, 0x79, 0x20, 0x00, 0x00, 0x00],
    );
    both_ways(
        &rt,
        Instr::Lea {
            from: Ea::Disp(7, 12),
            to: 7,
        },
        &[0x4F, 0xEF, 0x00, 0x0C],
    );
    both_ways(
        &rt,
        Instr::AddL {
            from: Ea::D(1),
            to: 0,
        },
        &[0xD0, 0x81],
    );
    both_ways(
        &rt,
        Instr::CmpaL {
            from: Ea::A(6),
            to: 4,
        },
        &[0xB9, 0xCE],
    );
}

#[test]
fn quick_long_and_exchange(rt: HostRuntime) {
    both_ways(
        &rt,
        Instr::AddqL {
            count: 8,
            to: Ea::A(7),
        },
        &[0x50, 0x8F],
    );
    both_ways(&rt, Instr::AsrL { count: 2, to: 0 }, &[0xE4, 0x80]);
    both_ways(
        &rt,
        Instr::MulsL {
            from: Ea::D(1),
            to: 0,
        },
        &[0x4C, 0x01, 0x08, 0x00],
    );
    both_ways(
        &rt,
        Instr::DivslL {
            from: Ea::D(1),
            quotient: 0,
            remainder: 2,
        },
        &[0x4C, 0x41, 0x08, 0x02],
    );
    both_ways(&rt, Instr::Jmp(Ea::Ind(1)), &[0x4E, 0xD1]);
    both_ways(&rt, Instr::ExgD { x: 1, y: 2 }, &[0xC3, 0x42]);
    both_ways(
        &rt,
        Instr::CmpiL {
            value: 5,
            to: Ea::D(0),
        },
        &[0x0C, 0x80, 0x00, 0x00, 0x00, 0x05],
    );
}

#[test]
fn control_and_bytes(rt: HostRuntime) {
    both_ways(&rt, Instr::ClrL(Ea::Pre(7)), &[0x42, 0xA7]);
    both_ways(&rt, Instr::Nop, &[0x4E, 0x71]);
    both_ways(&rt, Instr::Illegal, &[0x4A, 0xFC]);
    both_ways(&rt, Instr::Trap(3), &[0x4E, 0x43]);
    both_ways(
        &rt,
        Instr::MoveB {
            from: Ea::Imm(65),
            to: Ea::D(0),
        },
        &[0x10, 0x3C, 0x00, 0x41],
    );
    both_ways(&rt, Instr::Moveq { value: -1, to: 3 }, &[0x76, 0xFF]);
    both_ways(
        &rt,
        Instr::Bcc {
            cond: Cond::Ne,
            width: Width::Byte,
            disp: -2,
        },
        &[0x66, 0xFE],
    );
}
