//! Operands as they are printed.

ghost use Rattle.std.specs.Prelude.{◌≡◌, ◌<◌, ◌++◌, IsTrue, OnOk};
ghost use Rattle.m68020_code.specs.Table.{is_all, is_byte, index_is_row};
ghost use Rattle.orbit_tools.specs.Text.{data_register, address_register, indirect, index_register, index_size, factor, index, base_of, operand, byte_operand};

use crate::digits::{put_address, put_immediate, put_number};
use m68020_code::{Ea, Index};
use t_base::Memory;

fn put_data_register(out: &mut Vec<u8>, r: u8) -> Result<(), Memory>
    requires { r < 8 }
    ensures { OnOk result (out.new.items ≡ out.old.items ++ data_register r) }
{
    out.extend_from_slice(&[b'D', b'0' + r])?;
    Ok(())
}

fn put_address_register(out: &mut Vec<u8>, r: u8) -> Result<(), Memory>
    requires { r < 8 }
    ensures { OnOk result (out.new.items ≡ out.old.items ++ address_register r) }
{
    out.extend_from_slice(&[b'A', b'0' + r])?;
    Ok(())
}

fn put_indirect(out: &mut Vec<u8>, r: u8) -> Result<(), Memory>
    requires { r < 8 }
    ensures { OnOk result (out.new.items ≡ out.old.items ++ indirect r) }
{
    out.extend_from_slice(&[b'(', b'A', b'0' + r, b')'])?;
    Ok(())
}

fn put_index_register(out: &mut Vec<u8>, address: bool, r: u8) -> Result<(), Memory>
    requires { r < 8 }
    ensures { OnOk result (out.new.items ≡ out.old.items ++ index_register address r) }
{
    if address {
        put_address_register(out, r)
    } else {
        put_data_register(out, r)
    }
}

fn size_of_index(long: bool) -> &'static [u8]
    ensures { result.now ≡ index_size long }
{
    if long { b".L*" } else { b".W*" }
}

fn factor_of(scale: u8) -> &'static [u8]
    ensures { result.now ≡ factor scale }
{
    match scale {
        0 => b"1",
        1 => b"2",
        2 => b"4",
        _ => b"8",
    }
}

fn put_index(out: &mut Vec<u8>, x: Index) -> Result<(), Memory>
    requires { IsTrue (index_is_row x) }
    ensures { OnOk result (out.new.items ≡ out.old.items ++ index x) }
{
    put_index_register(out, x.address, x.reg)?;
    out.extend_from_slice(size_of_index(x.long))?;
    out.extend_from_slice(factor_of(x.scale))?;
    Ok(())
}

fn put_base(out: &mut Vec<u8>, base: u8, disp: i8) -> Result<(), Memory>
    requires { base < 8 }
    ensures { OnOk result (out.new.items ≡ out.old.items ++ base_of disp base) }
{
    put_number(out, i32::from(disp))?;
    out.push(b'(')?;
    put_address_register(out, base)
}

fn put_indexed(out: &mut Vec<u8>, base: u8, x: Index, disp: i8) -> Result<(), Memory>
    requires base { base < 8 }
    requires index { IsTrue (index_is_row x) }
    ensures { OnOk result (out.new.items ≡ out.old.items ++ operand (Ea.Index base x disp)) }
{
    put_base(out, base, disp)?;
    out.push(b',')?;
    put_index(out, x)?;
    out.push(b')')?;
    Ok(())
}

fn put_absolute(out: &mut Vec<u8>, at: u32) -> Result<(), Memory>
    ensures { OnOk result (out.new.items ≡ out.old.items ++ operand (Ea.Abs at)) }
{
    out.push(b'$')?;
    put_address(out, at)?;
    out.extend_from_slice(b".L")?;
    Ok(())
}

fn put_displaced(out: &mut Vec<u8>, r: u8, disp: i16) -> Result<(), Memory>
    requires { r < 8 }
    ensures { OnOk result (out.new.items ≡ out.old.items ++ operand (Ea.Disp r disp)) }
{
    put_number(out, i32::from(disp))?;
    put_indirect(out, r)
}

fn put_postincrement(out: &mut Vec<u8>, r: u8) -> Result<(), Memory>
    requires { r < 8 }
    ensures { OnOk result (out.new.items ≡ out.old.items ++ operand (Ea.Post r)) }
{
    put_indirect(out, r)?;
    out.push(b'+')?;
    Ok(())
}

fn put_predecrement(out: &mut Vec<u8>, r: u8) -> Result<(), Memory>
    requires { r < 8 }
    ensures { OnOk result (out.new.items ≡ out.old.items ++ operand (Ea.Pre r)) }
{
    out.push(b'-')?;
    put_indirect(out, r)
}

/// An operand of a long word.
pub fn put_operand(out: &mut Vec<u8>, e: Ea) -> Result<(), Memory>
    requires { IsTrue (is_all e) }
    ensures { OnOk result (out.new.items ≡ out.old.items ++ operand e) }
{
    match e {
        Ea::D(r) => put_data_register(out, r),
        Ea::A(r) => put_address_register(out, r),
        Ea::Ind(r) => put_indirect(out, r),
        Ea::Post(r) => put_postincrement(out, r),
        Ea::Pre(r) => put_predecrement(out, r),
        Ea::Disp(r, disp) => put_displaced(out, r, disp),
        Ea::Index { base, x, disp } => put_indexed(out, base, x, disp),
        Ea::Abs(at) => put_absolute(out, at),
        Ea::Imm(v) => put_immediate(out, v.cast_signed()),
    }
}

/// An operand of a byte.
pub fn put_byte_operand(out: &mut Vec<u8>, e: Ea) -> Result<(), Memory>
    requires operand { IsTrue (is_all e) }
    requires byte { IsTrue (is_byte e) }
    ensures { OnOk result (out.new.items ≡ out.old.items ++ byte_operand e) }
{
    match e {
        Ea::Imm(v) => put_immediate(out, i32::from((v as u8).cast_signed())),
        _ => put_operand(out, e),
    }
}
