//! The laws, each as the contract of a call that does nothing.
ghost use Rattle.rewriting.specs.RuleLaws.{OneMade, OneOfWhole, OneInstance, OneFirst, FirstLeads, NumberIsThere, OneState, OneRun};

use crate::place_laws::one_place;

/// A rule makes one term at most, of its own shape and of a whole term.
pub fn one_made()
    ensures shape { OneMade }
    ensures whole { OneOfWhole }
{}

/// A rule has one instance at most on a term at a place.
pub fn one_instance()
    ensures { OneInstance }
{}

/// Of the steps by some rules one at most is the first, and it leads to one state.
pub fn one_first()
    ensures step { OneFirst }
    ensures leads { FirstLeads }
    ensures state { OneState }
{
    one_place();
}

/// The number that is written for a call is that of a made definition with its origin.
pub fn number_is_there()
    ensures { NumberIsThere }
{}

/// A program has one run at most by some rules, of each number of steps.
pub fn one_run()
    ensures { OneRun }
{
    one_place();
}
