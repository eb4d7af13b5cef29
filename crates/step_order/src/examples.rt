//! Worked examples, each as the contract of a call that does nothing.
ghost use Rattle.step_order.specs.Examples.{PlaceIsSought, BelowIsSought, AboveIsSought};
ghost use Rattle.step_order.specs.Examples.{LaterIsSought, EarlierIsPassed, BelowEarlierIsPassed};

/// From a place on, the place, what is below and above it and later children are sought. Earlier
/// children and what is below them are passed.
pub fn of_search()
    ensures place { PlaceIsSought }
    ensures below { BelowIsSought }
    ensures above { AboveIsSought }
    ensures later { LaterIsSought }
    ensures earlier { EarlierIsPassed }
    ensures below_earlier { BelowEarlierIsPassed }
{}
