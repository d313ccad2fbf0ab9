// Values that need no store.

/// A value that needs no store: a fixnum, -2^29 to 2^29 - 1, a character by its code, 0 to 127, the empty list, which is false, or true.
#[derive(Clone, Copy, PartialEq, Eq, Debug)]
pub enum Atom {
    Fix(i32),
    Char(u8),
    Nil,
    True,
}
