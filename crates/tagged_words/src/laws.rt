//! Laws of the words of fixnums and characters.

ghost use Rattle.tagged_words.specs.FixnumLaws.{FixnumsHaveWords, FixnumsCompareAlike, IndicesAreBelow, FixnumsAddAlike, FixnumsMultiplyAlike, FixnumsDivideAlike};
ghost use Rattle.tagged_words.specs.CharLaws.{CharsHaveLowBytes, CharsCompareAlike, CharsConvert, AsciiIsBelow};

/// The word of a fixnum has 32 bits and the tag 0, and is four times the number.
pub fn fixnums_have_words()
    ensures { FixnumsHaveWords }
{}

/// Words of fixnums are equal, less or no greater where the numbers are. Without signs they are less than the word of a length where
/// the number is a place of a list that has this length.
pub fn fixnums_compare_alike()
    ensures signed { FixnumsCompareAlike }
    ensures indices { IndicesAreBelow }
{}

/// Results of arithmetic are the words of the results, and don't fit where these are out of the range of fixnums.
pub fn fixnums_compute_alike()
    ensures sums { FixnumsAddAlike }
    ensures products { FixnumsMultiplyAlike }
    ensures quotients { FixnumsDivideAlike }
{}

/// Characters: the low byte, order, and how they are made from numbers and bytes.
pub fn chars_are_words()
    ensures byte { CharsHaveLowBytes }
    ensures order { CharsCompareAlike }
    ensures converts { CharsConvert }
    ensures ascii { AsciiIsBelow }
{}
