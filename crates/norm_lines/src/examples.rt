//! Worked examples, as the contract of a call that does nothing.
ghost use Rattle.norm_lines.specs.Examples.{RunPrinted, DeepStepPrinted, RootStepPrinted, AppliedPrinted};

/// Lines of steps, and of made definitions.
pub fn of_lines()
    ensures run { RunPrinted }
    ensures deep { DeepStepPrinted }
    ensures root { RootStepPrinted }
    ensures applied { AppliedPrinted }
{}
