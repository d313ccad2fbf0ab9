// What stands in static words.
use t_base::Prim;

/// A thing in static words: the closure of a block that captures nothing, a builtin, an operation, a string literal, the print name of a
/// symbol, a symbol, a quoted pair, the methods of a template. The numbers are places, of a symbol and its print name that of the name.
#[derive(Clone, Copy, PartialEq, Eq, Debug)]
pub enum Thing {
    Closure(u32),
    Builtin(Prim),
    Operation(u32),
    Literal(u32),
    PrintName(u32),
    Symbol(u32),
    Pair(u32),
    Template(u32),
}
