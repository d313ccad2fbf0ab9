//! What it means that frames lay out a program in continuation-passing style (`specs/Laid.antt`), and that such frames keep its meaning.
#![tactic(auto)]

ghost use Rattle.layout_relation.specs.Examples.{CatchIsLaidOut};
ghost use Rattle.layout_relation.specs.Laws.{LaidOutKeeps, LaidOutIsSmall};

/// Frames that lay out a whole program keep its meaning.
pub fn laid_out_keeps()
    ensures { LaidOutKeeps }
{}

/// Frames that lay out a program are small, as are their records, and keep a variable once.
pub fn laid_out_is_small()
    ensures { LaidOutIsSmall }
{}

/// What a layout of a program with a CATCH looks like: these frames lay it out.
pub fn a_catch_is_laid_out()
    ensures { CatchIsLaidOut }
{}
