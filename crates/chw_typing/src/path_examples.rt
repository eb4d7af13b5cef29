//! Worked examples, each as the contract of a call that does nothing.
ghost use Rattle.chw_typing.specs.PathExamples.{ArgumentFound, ArgumentChanged, NoSecondChild, FirstOfThree, SideBeforeBody, OuterBeforeInner};

/// A part at a path, and another one there.
pub fn of_paths()
    ensures found { ArgumentFound }
    ensures changed { ArgumentChanged }
    ensures none { NoSecondChild }
    ensures argument { FirstOfThree }
{}

/// Which of two places is earlier.
pub fn of_the_order()
    ensures sides { SideBeforeBody }
    ensures outer { OuterBeforeInner }
{}
