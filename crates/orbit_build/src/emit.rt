//! Instructions, put behind the code so far.

ghost use Rattle.std.specs.Prelude.{◌≡◌, ◌<◌, ◌++◌, OnOk, IsTrue, true};
ghost use Rattle.m68020_code.specs.Table.{is_row, spelling};
ghost use Rattle.t_prim.specs.Operands.{in_range};
ghost use Rattle.orbit_build.specs.Code.{word, slot, load, save, add_saved, bytes_of};

use m68020_code::{Cond, Ea, Instr, Width, encode};
use t_base::Memory;

const STATICS_START: u32 = 0x2000_0000;

/// The word of a fixnum.
pub fn word_of(value: i32) -> u32
    requires { in_range value ≡ true }
    ensures { result ≡ word value }
{
    (value * 4).cast_unsigned()
}

/// One instruction.
pub fn push(out: &mut Vec<u8>, i: Instr) -> Result<(), Memory>
    requires { IsTrue (is_row i) }
    ensures { OnOk result (out.new.items ≡ out.old.items ++ spelling i) }
{
    let mut bytes = [0u8; 10];
    let len = encode(&i, &mut bytes).unwrap();
    out.extend_from_slice(&bytes[..len])?;
    Ok(())
}

/// D0 gets a word.
pub fn push_load(out: &mut Vec<u8>, value: u32) -> Result<(), Memory>
    ensures { OnOk result (out.new.items ≡ out.old.items ++ spelling (load value)) }
{
    push(
        out,
        Instr::MoveL {
            from: Ea::Imm(value),
            to: Ea::D(0),
        },
    )
}

// The static word of a sum under so many others.
fn slot(depth: u32) -> u32
    requires { depth < 2000 }
    ensures { result ≡ slot depth }
{
    STATICS_START + 4 * depth
}

/// The static word of a sum gets its first operand.
pub fn push_save(out: &mut Vec<u8>, depth: u32) -> Result<(), Memory>
    requires { depth < 2000 }
    ensures { OnOk result (out.new.items ≡ out.old.items ++ spelling (save depth)) }
{
    push(
        out,
        Instr::MoveL {
            from: Ea::D(0),
            to: Ea::Abs(slot(depth)),
        },
    )
}

/// D0 gets the sum of the first operand and itself, or fault 7 is raised.
pub fn push_add(out: &mut Vec<u8>, depth: u32) -> Result<(), Memory>
    requires { depth < 2000 }
    ensures { OnOk result (out.new.items ≡ out.old.items ++ bytes_of (add_saved depth)) }
{
    push(
        out,
        Instr::MoveL {
            from: Ea::Abs(slot(depth)),
            to: Ea::D(1),
        },
    )?;
    push(
        out,
        Instr::AddL {
            from: Ea::D(1),
            to: 0,
        },
    )?;
    push(
        out,
        Instr::Bcc {
            cond: Cond::Vc,
            width: Width::Byte,
            disp: 4,
        },
    )?;
    push(out, Instr::Moveq { value: 7, to: 0 })?;
    push(out, Instr::Trap(3))
}
