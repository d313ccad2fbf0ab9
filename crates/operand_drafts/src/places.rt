// Where static words have what is named.
ghost use Rattle.std.specs.Prelude.{◌≡◌};
ghost use Rattle.t_prim.specs.Identity.{number_of};
ghost use Rattle.operand_drafts.specs.Places.{word_at};

use t_base::Prim;

/// The words of what a program names: of symbols by their names, of strings, quoted pairs, closures of blocks that capture nothing, closures of globals,
/// operations and builtins by their places; 0 for what isn't named.
#[derive(Drop)]
pub struct Places {
    pub symbols: Vec<u32>,
    pub strings: Vec<u32>,
    pub pairs: Vec<u32>,
    pub closures: Vec<u32>,
    pub globals: Vec<u32>,
    pub operations: Vec<u32>,
    pub builtins: Vec<u32>,
    /// The addresses of the methods of templates.
    pub templates: Vec<u32>,
    /// The blocks that enter the codes of closures, and those of builtins.
    pub entries: Vec<u32>,
    pub builtin_entries: Vec<u32>,
    /// For each global that is a procedure the block that enters its code, for others the one that makes calls of what isn't known.
    pub global_entries: Vec<u32>,
    pub apply: u32,
    /// A number above those of all variables.
    pub free: u32,
}

/// What stands at a place of a table, 0 behind its end.
pub fn word_at(table: &[u32], n: u32) -> u32
    ensures { result ≡ word_at table.now n }
{
    match table.get(n as usize) {
        None => 0,
        Some(word) => *word,
    }
}

/// The place of a builtin among all of them.
pub fn number_of(p: Prim) -> u32
    ensures { result ≡ number_of p }
{
    match p {
        Prim::Add => 0,
        Prim::Sub => 1,
        Prim::Mul => 2,
        Prim::Quotient => 3,
        Prim::Remainder => 4,
        Prim::Inc => 5,
        Prim::Dec => 6,
        Prim::NumEq => 7,
        Prim::NumLt => 8,
        Prim::NumGt => 9,
        Prim::NumLe => 10,
        Prim::NumGe => 11,
        Prim::IsZero => 12,
        Prim::IsNegative => 13,
        Prim::IsPositive => 14,
        Prim::Eq => 15,
        Prim::Not => 16,
        Prim::IsNull => 17,
        Prim::IsPair => 18,
        Prim::IsAtom => 19,
        Prim::IsList => 20,
        Prim::IsFixnum => 21,
        Prim::IsChar => 22,
        Prim::IsString => 23,
        Prim::IsSymbol => 24,
        Prim::IsVector => 25,
        Prim::IsProcedure => 26,
        Prim::Cons => 27,
        Prim::Car => 28,
        Prim::Cdr => 29,
        Prim::SetCar => 30,
        Prim::SetCdr => 31,
        Prim::MakeVector => 32,
        Prim::VectorLength => 33,
        Prim::Vref => 34,
        Prim::SetVref => 35,
        Prim::StringLength => 36,
        Prim::StringElt => 37,
        Prim::SymbolToString => 38,
        Prim::CharToAscii => 39,
        Prim::AsciiToChar => 40,
        Prim::CharEq => 41,
        Prim::CharLt => 42,
        Prim::PutFixnum => 43,
        Prim::PutChar => 44,
        Prim::PutString => 45,
        Prim::Newline => 46,
        Prim::Error => 47,
    }
}
