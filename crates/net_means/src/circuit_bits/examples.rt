//! Worked examples, as the contract of a call that does nothing.
ghost use Rattle.net_means.specs.CircuitBits.Example.{AccumulatorHas};

use net_grounds::laws::facts;

/// The register of an accumulator has its bits at the first event and at the second, as it is meant and in its net.
pub fn of_accumulator()
    ensures { AccumulatorHas }
{
    facts();
}
