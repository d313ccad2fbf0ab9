//! Which operands there are, and which of them a row takes.

ghost use Rattle.std.specs.Prelude.{◌≡◌};
ghost use Rattle.m68020_code.specs.Table.{is_all, index_is_row, is_alter_mode, is_control_mode, is_data_mode, is_changed_mode};

use crate::instr::{Ea, Index};

fn is_index(x: &Index) -> bool
    ensures { result ≡ index_is_row x.now }
{
    x.reg < 8 && x.scale < 4
}

/// An operand of one of the nine modes.
pub fn is_operand(e: Ea) -> bool
    ensures { result ≡ is_all e }
{
    match e {
        Ea::D(r) | Ea::A(r) | Ea::Ind(r) | Ea::Post(r) | Ea::Pre(r) => r < 8,
        Ea::Disp(r, _disp) => r < 8,
        Ea::Index {
            base,
            x,
            disp: _disp,
        } => base < 8 && is_index(&x),
        Ea::Abs(_at) | Ea::Imm(_at) => true,
    }
}

/// Any but an address register and immediate data.
pub fn alters(e: &Ea) -> bool
    ensures { result ≡ is_alter_mode e.now }
{
    !matches!(e, Ea::A(_) | Ea::Imm(_))
}

/// A place in storage whose address moves no register.
pub fn controls(e: &Ea) -> bool
    ensures { result ≡ is_control_mode e.now }
{
    matches!(
        e,
        Ea::Ind(_) | Ea::Disp(_, _) | Ea::Index { .. } | Ea::Abs(_)
    )
}

/// Any but an address register.
pub fn is_data(e: &Ea) -> bool
    ensures { result ≡ is_data_mode e.now }
{
    !matches!(e, Ea::A(_))
}

/// Any but immediate data.
pub fn changes(e: &Ea) -> bool
    ensures { result ≡ is_changed_mode e.now }
{
    !matches!(e, Ea::Imm(_))
}
