//! A worked example of unrolling and types, as the contract of a call that does nothing.
ghost use Rattle.unroll_laws.specs.Examples.{TwoFromOne};

/// A value twice: the premises of the law can be met, and the type is kept up to naturals alone.
pub fn of_unrolling()
    ensures { TwoFromOne }
{}
