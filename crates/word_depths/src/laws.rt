//! The law of the stack's depth, as contract of a function that does nothing.

ghost use Rattle.word_depths.specs.Laws.{LinesKeepDepth, BlocksAreDeep, UsedHomesHaveRoom, StartsAreDeep};

/// Where so many words are in the stack before a line, as many are in it behind the line as the account of homes says; and the line leads to no
/// block but those that it names, and to the one whose code an Enter has.
pub fn lines_keep_depth()
    ensures { LinesKeepDepth }
{}

/// At the start of a block for which the stack is deep enough, and from there on from line to line, the homes in the stack of the variables that
/// live are among the words that are in it; and a block to which a line leads is one for which it is deep enough.
pub fn blocks_are_deep()
    ensures { BlocksAreDeep }
{}

/// Where the stack is as deep as the account says, the home in the stack of each variable that the line uses is inside of the stack.
pub fn used_homes_have_room()
    ensures { UsedHomesHaveRoom }
{}

/// At the start of the entry with an empty stack, and of each block whose code is taken, the stack is as deep as the account says.
pub fn starts_are_deep()
    ensures { StartsAreDeep }
{}
