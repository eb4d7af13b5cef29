//! Worked examples, each as the contract of a call that does nothing.
ghost use Rattle.acts.specs.Examples.{InOtherTurns, OnEachArgument, AtEachHistory, AtItsWidth, InEachWord};

/// A term acts as another that takes other turns; it doesn't act as one that differs on one argument, at one history, or in one
/// word. Nor does a word act as itself at another width than its own.
pub fn of_acting()
    ensures turns { InOtherTurns }
    ensures arguments { OnEachArgument }
    ensures histories { AtEachHistory }
    ensures widths { AtItsWidth }
    ensures words { InEachWord }
{}
