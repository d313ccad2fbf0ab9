//! Laws of the listing, as contracts of functions that do nothing.

ghost use Rattle.orbit_tools.specs.Laws.{EachRowIsListed};

/// Wherever a row's bytes stand, its line comes next, and then the lines of what stands behind it.
pub fn each_row_is_listed()
    ensures { EachRowIsListed }
{}
