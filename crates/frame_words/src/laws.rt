//! Laws of words of values, where storage holds the data of a state.

ghost use Rattle.frame_words.specs.Laws.{TagsTellKinds, WordsTellValues, ThingsAreRead, FixedAreRead, HeadersAreRead, PairsAreRead, VectorsAreRead, TextsAreRead, TextsAreHeld, SymbolsAreRead};
ghost use Rattle.frame_words.specs.Laws.{AddingKeepsWords, AddingKeepsData};

/// The two low bits of a word tell the kind of its value, and two words are equal where their values are one thing.
pub fn words_tell_values()
    ensures tags { TagsTellKinds }
    ensures words { WordsTellValues }
{}

/// What was made on the heap and what stands in static words is read at its place.
pub fn things_are_read()
    ensures heap { ThingsAreRead }
    ensures fixed { FixedAreRead }
{}

/// By way of a value's word its header is read, both parts of a pair, length and elements of a vector, length and bytes of a string, and the
/// print name of a symbol.
pub fn values_are_read()
    ensures headers { HeadersAreRead }
    ensures pairs { PairsAreRead }
    ensures vectors { VectorsAreRead }
    ensures texts { TextsAreRead }
    ensures bytes { TextsAreHeld }
    ensures symbols { SymbolsAreRead }
{}

/// Where a state has more than another one, the words of values are as before, and storage holds its data where the contents of what
/// is new stand behind those of what was there.
pub fn more_is_held()
    ensures words { AddingKeepsWords }
    ensures data_held { AddingKeepsData }
{}
