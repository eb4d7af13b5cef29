//! Worked examples of the definitions in specs/Examples.antt, each as the contract of a call that does nothing.
ghost use Rattle.step_search.specs.Examples.{TwoPlaces, OnePlaceOnce, NothingToSee};

/// At each of some different places the rules are tried once.
pub fn of_looks()
    ensures two { TwoPlaces }
    ensures one { OnePlaceOnce }
    ensures none { NothingToSee }
{}
