//! Laws of frames that lay out a program in continuation-passing style (`specs/Wholeness.antt`).
#![tactic(auto)]

ghost use Rattle.layout_laws.specs.Wholeness.{LaidOutHasPlaces, LaidOutHasShapes, LaidOutHasBlocks, LaidOutHasScopes, LaidOutIsOnHeap, DistinctArmsAreOwn, LaidOutIsWhole};

/// What frames name that lay out a whole program is there.
pub fn laid_out_has_places()
    ensures { LaidOutHasPlaces }
{}

/// In frames that lay out a whole program a list agrees with what names it: operands of builtins and calls, arguments of a Jump, what a
/// closure without a record keeps.
pub fn laid_out_has_shapes()
    ensures { LaidOutHasShapes }
{}

/// In frames that lay out a whole program each block has the parameters of what it is for.
pub fn laid_out_has_blocks()
    ensures { LaidOutHasBlocks }
{}

/// In frames that lay out a program each variable that is used was bound before, on each way to its use.
pub fn laid_out_has_scopes()
    ensures { LaidOutHasScopes }
{}

/// Frames that lay out a whole program are whole, where what is owed beside the relation holds.
pub fn laid_out_is_whole()
    ensures { LaidOutIsWhole }
{}

/// In frames that lay out a whole program each closure stands on the heap.
pub fn laid_out_is_on_heap()
    ensures { LaidOutIsOnHeap }
{}

/// In frames that lay out a whole program arms that differ are blocks of one end each.
pub fn distinct_arms_are_own()
    ensures { DistinctArmsAreOwn }
{}
