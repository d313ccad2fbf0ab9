//! Homes as operands of instructions, and by number.

ghost use Rattle.std.specs.Prelude.{◌≡◌};
ghost use Rattle.word_ir.specs.Storage.{static_at};
ghost use Rattle.lap_items.specs.Homes.{home_of, at_home, put_into, number_of_home, home_at};

use m68020_asm::Item;
use m68020_code::{Ea, Instr};
use parallel_moves::SCRATCH;
use t_base::Var;
use word_ir::Home;

/// Where static words start.
const STATICS_START: u32 = 0x2000_0000;

/// The stack pointer.
pub const TOP: u8 = 7;

/// The farthest word of the stack that can be a home.
const FARTHEST: u32 = 8191;

/// The address of a static word by its place.
pub fn static_address(place: u32) -> u32
    ensures { result ≡ static_at place }
{
    STATICS_START.wrapping_add(place.wrapping_mul(4))
}

/// The home of a variable, D0 for one that has none.
pub fn home_of(homes: &[Home], var: Var) -> Home
    ensures { result ≡ home_of homes.now var }
{
    match homes.get(var.0 as usize) {
        Some(home) => *home,
        None => Home::D(0),
    }
}

/// A home as an operand.
pub fn at_home(home: Home) -> Ea
    ensures { result ≡ at_home home }
{
    match home {
        Home::D(i) => Ea::D(i),
        Home::A(i) => Ea::A(i),
        Home::Stack(n) => Ea::Disp(TOP, (4 * n.min(FARTHEST)) as i16),
        Home::Static(place) => Ea::Abs(static_address(place)),
    }
}

/// What puts an operand's word into a home.
pub fn put_into(from: Ea, home: Home) -> Item
    ensures { result ≡ put_into from home }
{
    match home {
        Home::A(i) => Item::Plain(Instr::MoveaL { from, to: i }),
        Home::D(i) => Item::Plain(Instr::MoveL { from, to: Ea::D(i) }),
        Home::Stack(n) => Item::Plain(Instr::MoveL {
            from,
            to: at_home(Home::Stack(n)),
        }),
        Home::Static(place) => Item::Plain(Instr::MoveL {
            from,
            to: at_home(Home::Static(place)),
        }),
    }
}

/// The number of a home, for moves that are done at once.
pub fn number_of_home(home: Home) -> u32
    ensures { result ≡ number_of_home home }
{
    match home {
        Home::D(i) => 4 * u32::from(i),
        Home::A(i) => 4 * u32::from(i) + 1,
        Home::Static(place) => place.wrapping_mul(4) + 2,
        Home::Stack(n) => n.wrapping_mul(4) + 3,
    }
}

/// The home of a number, or D7 for the place between them.
pub fn home_at(number: u32) -> Home
    ensures { result ≡ home_at number }
{
    if number == SCRATCH {
        Home::D(7)
    } else if number % 4 == 0 {
        Home::D((number / 4).min(7) as u8)
    } else if number % 4 == 1 {
        Home::A((number / 4).min(7) as u8)
    } else if number % 4 == 2 {
        Home::Static(number / 4)
    } else {
        Home::Stack(number / 4)
    }
}
