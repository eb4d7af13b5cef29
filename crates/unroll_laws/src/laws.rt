//! The law of unrolling and types, as the contract of a call that does nothing.
ghost use Rattle.unroll_laws.specs.Laws.{UnrollingKeepsType};

/// What a primitive on vectors is unrolled to has the type that the primitive has there, up to naturals.
pub fn unrolling_keeps_types()
    ensures { UnrollingKeepsType }
{}
