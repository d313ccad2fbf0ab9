//! Where each line of a tree leads a stamped run, whose frames are looked after.

ghost use Rattle.word_trees.specs.Laws.{MovesLead, LoadsLead, BytesLead, StoresLead, ResultsLead, OverLeads, TakesLead, NoHeapLeads, PushesLead, NoStackLeads, PopsLead, ResetsLead, PutsLead, ServicesEnd, ServicesOfTwoEnd, TestsHold, TestsFail, JumpsLead, EntersLead};

/// A word is bound, read or stored where the stamps allow it.
pub fn words_lead()
    ensures moves { MovesLead }
    ensures loads { LoadsLead }
    ensures bytes { BytesLead }
    ensures stores { StoresLead }
{}

/// A result is bound, or the run turns where it doesn't fit.
pub fn arithmetic_leads()
    ensures results { ResultsLead }
    ensures over { OverLeads }
{}

/// Room is taken in heap and stack and given back, or the run turns where there is none.
pub fn room_leads()
    ensures takes { TakesLead }
    ensures no_heap { NoHeapLeads }
    ensures pushes { PushesLead }
    ensures no_stack { NoStackLeads }
    ensures pops { PopsLead }
    ensures resets { ResetsLead }
{}

/// Services put bytes or end the run.
pub fn services_lead()
    ensures puts { PutsLead }
    ensures ends { ServicesEnd }
    ensures of_two { ServicesOfTwoEnd }
{}

/// Ends of blocks lead on in another block, where no more is bound than before, or nothing but the parameters.
pub fn ends_lead()
    ensures holds { TestsHold }
    ensures fails { TestsFail }
    ensures jumps { JumpsLead }
    ensures enters { EntersLead }
{}
