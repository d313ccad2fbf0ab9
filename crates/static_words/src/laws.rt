//! What the written words are.
ghost use Rattle.static_words.specs.Words.{WrittenAsLaidOut};

/// The words that are written for what was gathered are those that its layout has at the start of the program.
pub fn written_as_laid_out()
    ensures { WrittenAsLaidOut }
{}
