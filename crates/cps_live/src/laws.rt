//! Laws of the variables that are live and of those that are needed.
ghost use Rattle.cps_live.specs.LiveLaws.{FewAreLive, FewAreNeeded, LambdasNeedFew, ObjectsNeedFew, JoinsComeFirst};

/// In a term of a whole program at most so many variables are live as its unit's largest form has nodes, and two.
pub fn few_are_live()
    ensures { FewAreLive }
{}

/// A term of a whole program needs at most so many variables as its unit's largest form has nodes, and two, those that Joins need among them.
pub fn few_are_needed()
    ensures { FewAreNeeded }
{}

/// Of what the body of a LAMBDA of a whole program needs at most so many variables are not the LAMBDA's own as the unit's largest form has
/// nodes.
pub fn lambdas_need_few()
    ensures { LambdasNeedFew }
{}

/// The methods of an object of a whole program need at most so many variables together, less their own, as the unit's largest form has nodes.
pub fn objects_need_few()
    ensures { ObjectsNeedFew }
{}

/// In the order in which a whole program is walked over, a Join stands before each term in which its `k` is free.
pub fn joins_come_first()
    ensures { JoinsComeFirst }
{}
