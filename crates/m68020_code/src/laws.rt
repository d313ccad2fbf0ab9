//! Laws of the table, as contracts of functions that do nothing.

ghost use Rattle.m68020_code.specs.Laws.{NoProperPrefix, OneToFiveWords};

/// No instruction's bytes are a proper part of the front of another's. So bytes are read in one way alone.
pub fn no_proper_prefix()
    ensures { NoProperPrefix }
{}

/// An instruction has one to five words, so its bytes are 2 to 10, and an even number.
pub fn one_to_five_words()
    ensures { OneToFiveWords }
{}
