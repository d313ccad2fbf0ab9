//! Instructions as they are printed.

ghost use Rattle.std.specs.Prelude.{◌≡◌, ◌<◌, ◌++◌, IsTrue, OnOk};
ghost use Rattle.m68020_code.specs.Table.{is_all, is_byte, is_row};
ghost use Rattle.orbit_tools.specs.Text.{immediate, operand, byte_operand, branch_name, width_name, target, one, two, instruction};

use crate::digits::{put_address, put_immediate};
use crate::operand::{put_byte_operand, put_operand};
use m68020_code::{Cond, Ea, Instr, Width};
use t_base::Memory;

fn put_one(out: &mut Vec<u8>, mnemonic: &[u8], a: Ea) -> Result<(), Memory>
    requires { IsTrue (is_all a) }
    ensures { OnOk result (out.new.items ≡ out.old.items ++ one mnemonic.now (operand a)) }
{
    out.extend_from_slice(mnemonic)?;
    out.push(b' ')?;
    put_operand(out, a)
}

fn put_one_number(out: &mut Vec<u8>, mnemonic: &[u8], value: i32) -> Result<(), Memory>
    ensures { OnOk result (out.new.items ≡ out.old.items ++ one mnemonic.now (immediate value)) }
{
    out.extend_from_slice(mnemonic)?;
    out.push(b' ')?;
    put_immediate(out, value)
}

fn put_two(out: &mut Vec<u8>, mnemonic: &[u8], a: Ea, b: Ea) -> Result<(), Memory>
    requires a { IsTrue (is_all a) }
    requires b { IsTrue (is_all b) }
    ensures { OnOk result (out.new.items ≡ out.old.items ++ two mnemonic.now (operand a) (operand b)) }
{
    put_one(out, mnemonic, a)?;
    out.push(b',')?;
    put_operand(out, b)
}

fn put_number_and(out: &mut Vec<u8>, mnemonic: &[u8], value: i32, b: Ea) -> Result<(), Memory>
    requires { IsTrue (is_all b) }
    ensures { OnOk result (out.new.items ≡ out.old.items ++ two mnemonic.now (immediate value) (operand b)) }
{
    put_one_number(out, mnemonic, value)?;
    out.push(b',')?;
    put_operand(out, b)
}

fn put_move_byte(out: &mut Vec<u8>, from: Ea, to: Ea) -> Result<(), Memory>
    requires from { IsTrue (is_all from) }
    requires byte { IsTrue (is_byte from) }
    requires to { IsTrue (is_all to) }
    ensures { OnOk result (out.new.items ≡ out.old.items ++ instruction 0 (Instr.MoveB from to)) }
{
    out.extend_from_slice(b"MOVE.B ")?;
    put_byte_operand(out, from)?;
    out.push(b',')?;
    put_operand(out, to)
}

fn put_divide(out: &mut Vec<u8>, from: Ea, quotient: u8, remainder: u8) -> Result<(), Memory>
    requires from { IsTrue (is_all from) }
    requires quotient { quotient < 8 }
    requires remainder { remainder < 8 }
    ensures { OnOk result (out.new.items ≡ out.old.items ++ instruction 0 (Instr.DivslL from quotient remainder)) }
{
    put_two(out, b"DIVSL.L", from, Ea::D(remainder))?;
    out.push(b':')?;
    put_operand(out, Ea::D(quotient))
}

fn name_of_branch(cond: Cond) -> &'static [u8]
    ensures { result.now ≡ branch_name cond }
{
    match cond {
        Cond::Bra => b"BRA",
        Cond::Hi => b"BHI",
        Cond::Ls => b"BLS",
        Cond::Cc => b"BCC",
        Cond::Cs => b"BCS",
        Cond::Ne => b"BNE",
        Cond::Eq => b"BEQ",
        Cond::Vc => b"BVC",
        Cond::Vs => b"BVS",
        Cond::Pl => b"BPL",
        Cond::Mi => b"BMI",
        Cond::Ge => b"BGE",
        Cond::Lt => b"BLT",
        Cond::Gt => b"BGT",
        Cond::Le => b"BLE",
    }
}

fn name_of_width(width: Width) -> &'static [u8]
    ensures { result.now ≡ width_name width }
{
    match width {
        Width::Byte => b".B",
        Width::Word => b".W",
        Width::Long => b".L",
    }
}

fn target_of(at: u32, disp: i32) -> u32
    ensures { result ≡ target at disp }
{
    at.wrapping_add(2).wrapping_add(disp.cast_unsigned())
}

fn put_branch_name(out: &mut Vec<u8>, cond: Cond, width: Width) -> Result<(), Memory>
    ensures { OnOk result (out.new.items ≡ out.old.items ++ (branch_name cond ++ width_name width)) }
{
    out.extend_from_slice(name_of_branch(cond))?;
    out.extend_from_slice(name_of_width(width))?;
    Ok(())
}

fn put_branch(out: &mut Vec<u8>, at: u32, cond: Cond, width: Width, disp: i32) -> Result<(), Memory>
    ensures { OnOk result (out.new.items ≡ out.old.items ++ instruction at (Instr.Bcc cond width disp)) }
{
    put_branch_name(out, cond, width)?;
    out.extend_from_slice(b" $")?;
    put_address(out, target_of(at, disp))
}

/// The text of an instruction that stands at the address.
pub fn put_instruction(out: &mut Vec<u8>, at: u32, i: Instr) -> Result<(), Memory>
    requires { IsTrue (is_row i) }
    ensures { OnOk result (out.new.items ≡ out.old.items ++ instruction at i) }
{
    match i {
        Instr::MoveL { from, to } => put_two(out, b"MOVE.L", from, to),
        Instr::MoveB { from, to } => put_move_byte(out, from, to),
        Instr::MoveaL { from, to } => put_two(out, b"MOVEA.L", from, Ea::A(to)),
        Instr::Moveq { value, to } => put_number_and(out, b"MOVEQ", i32::from(value), Ea::D(to)),
        Instr::Lea { from, to } => put_two(out, b"LEA", from, Ea::A(to)),
        Instr::Jmp(to) => put_one(out, b"JMP", to),
        Instr::Trap(v) => put_one_number(out, b"TRAP", i32::from(v)),
        Instr::Nop => put_name(out, b"NOP"),
        Instr::Illegal => put_name(out, b"ILLEGAL"),
        Instr::AddL { from, to } => put_two(out, b"ADD.L", from, Ea::D(to)),
        Instr::SubL { from, to } => put_two(out, b"SUB.L", from, Ea::D(to)),
        Instr::AndL { from, to } => put_two(out, b"AND.L", from, Ea::D(to)),
        Instr::OrL { from, to } => put_two(out, b"OR.L", from, Ea::D(to)),
        Instr::CmpL { from, to } => put_two(out, b"CMP.L", from, Ea::D(to)),
        Instr::AddaL { from, to } => put_two(out, b"ADDA.L", from, Ea::A(to)),
        Instr::SubaL { from, to } => put_two(out, b"SUBA.L", from, Ea::A(to)),
        Instr::CmpaL { from, to } => put_two(out, b"CMPA.L", from, Ea::A(to)),
        Instr::AddqL { count, to } => put_number_and(out, b"ADDQ.L", i32::from(count), to),
        Instr::SubqL { count, to } => put_number_and(out, b"SUBQ.L", i32::from(count), to),
        Instr::TstL(to) => put_one(out, b"TST.L", to),
        Instr::ClrL(to) => put_one(out, b"CLR.L", to),
        Instr::AddiL { value, to } => put_number_and(out, b"ADDI.L", value.cast_signed(), to),
        Instr::AndiL { value, to } => put_number_and(out, b"ANDI.L", value.cast_signed(), to),
        Instr::CmpiL { value, to } => put_number_and(out, b"CMPI.L", value.cast_signed(), to),
        Instr::ExgD { x, y } => put_two(out, b"EXG", Ea::D(x), Ea::D(y)),
        Instr::ExgA { x, y } => put_two(out, b"EXG", Ea::A(x), Ea::A(y)),
        Instr::ExgDA { d, a } => put_two(out, b"EXG", Ea::D(d), Ea::A(a)),
        Instr::AslL { count, to } => put_number_and(out, b"ASL.L", i32::from(count), Ea::D(to)),
        Instr::AsrL { count, to } => put_number_and(out, b"ASR.L", i32::from(count), Ea::D(to)),
        Instr::MulsL { from, to } => put_two(out, b"MULS.L", from, Ea::D(to)),
        Instr::DivslL {
            from,
            quotient,
            remainder,
        } => put_divide(out, from, quotient, remainder),
        Instr::Bcc { cond, width, disp } => put_branch(out, at, cond, width, disp),
    }
}

fn put_name(out: &mut Vec<u8>, mnemonic: &[u8]) -> Result<(), Memory>
    ensures { OnOk result (out.new.items ≡ out.old.items ++ mnemonic.now) }
{
    out.extend_from_slice(mnemonic)?;
    Ok(())
}
