//! The machine from outside: boot, its stops, and what its accessors see.

use m68020_step::{Machine, Sizes, Step, Why};
use std::alloc::Global;
use std::process::Abort;
use std::test::Fail;
use t_base::Memory;

const SIZES: Sizes = Sizes {
    heap: 64,
    stack: 72,
};

fn booted(rt: &impl Abort, alloc: Global, code: &[u8]) -> Result<Machine, Memory> {
    assert!(rt; code.len() % 2 == 0 && 2 <= code.len() && code.len() <= 64);
    let statics = vec![in alloc; 1, 2, 3, 4, 5, 6, 7, 8]?;
    Machine::new(alloc, code.to_vec(alloc)?, statics, 0x1_0000, SIZES)
}

fn run(m: &mut Machine, steps: u32) -> Step {
    let mut last = Step::On;
    for _ in 0..steps {
        last = m.step();
        if last != Step::On {
            return last;
        }
    }
    last
}

#[test]
fn boot_state(rt: HostRuntime) -> Result<(), Fail> {
    let m = booted(&rt, rt.alloc(), &[0x4E, 0x71])?;
    for i in 0..8u8 {
        assert_eq!(rt; m.d(i), 0);
    }
    let want = [
        0,
        0,
        0,
        0,
        0x4000_0000,
        0x6000_0000,
        0x4000_0040,
        0x6000_0048,
    ];
    for i in 0..8u8 {
        assert_eq!(rt; m.a(i), want[i as usize]);
    }
    assert_eq!(rt; m.pc(), 0x1_0000);
    let f = m.flags();
    assert!(rt; !f.x && !f.n && !f.z && !f.v && !f.c);
    Ok(())
}

#[test]
fn first_stop_of_a_run(rt: HostRuntime) -> Result<(), Fail> {
    let table = [
        // JMP to an odd address.
        (
            [0x4E, 0xF9, 0x00, 0x01, 0x00, 0x01],
            Step::Stop(Why::OddAddress),
            0x1_0001,
        ),
        // MOVE.L from address 0.
        (
            [0x20, 0x39, 0x00, 0x00, 0x00, 0x00],
            Step::Stop(Why::BadAddress),
            0x1_0000,
        ),
        // Past the last NOP.
        (
            [0x4E, 0x71, 0x4E, 0x71, 0x4E, 0x71],
            Step::Stop(Why::BadAddress),
            0x1_0006,
        ),
        // A branch to itself.
        ([0x60, 0xFE, 0x4E, 0x71, 0x4E, 0x71], Step::On, 0x1_0000),
        // ILLEGAL behind a NOP.
        (
            [0x4E, 0x71, 0x4A, 0xFC, 0x4E, 0x71],
            Step::Stop(Why::Illegal),
            0x1_0002,
        ),
        // TRAP behind a NOP.
        (
            [0x4E, 0x71, 0x4E, 0x4F, 0x4E, 0x71],
            Step::Service(15),
            0x1_0004,
        ),
        // DIVSL.L by a zero register.
        (
            [0x4E, 0x71, 0x4C, 0x41, 0x08, 0x02],
            Step::Stop(Why::ZeroDivide),
            0x1_0002,
        ),
    ];
    for (code, want, pc) in table {
        let mut m = booted(&rt, rt.alloc(), &code)?;
        assert_eq!(rt; run(&mut m, 1000), want);
        assert_eq!(rt; m.pc(), pc);
    }
    Ok(())
}

#[test]
fn bytes_whole_in_one_region(rt: HostRuntime) -> Result<(), Fail> {
    let m = booted(&rt, rt.alloc(), &[0x4E, 0x71])?;
    assert_eq!(rt; m.byte_at(0x1_0001), Some(0x71));
    assert_eq!(rt; m.byte_at(0x1_0002), None);
    assert_eq!(rt; m.byte_at(0x2000_0007), Some(8));
    assert_eq!(rt; m.byte_at(0x6000_0047), Some(0));
    assert_eq!(rt; m.byte_at(0x6000_0048), None);
    assert_eq!(rt; m.bytes_at(0x2000_0003, 4), Some([4, 5, 6, 7].as_slice()));
    assert_eq!(rt; m.bytes_at(0x2000_0005, 4), None);
    Ok(())
}
