//! The laws, each as the contract of a call that does nothing.
ghost use Rattle.normal_forms.specs.Laws.{NormalIsFirstOrder, NamesAreWires, NormalHoldsOnlyCalls, OneWhole, WholeIsThere, OneFirstBlocked};

use rewriting::scene_laws::names_of_modes;

/// Each body of a normal state is monomorphic and first-order.
pub fn normal_is_first_order()
    ensures { NormalIsFirstOrder }
{}

/// Each variable in scope in a body of a normal state has a representable type or a port.
pub fn names_are_wires()
    ensures { NamesAreWires }
{
    names_of_modes();
}

/// A made definition stands in a body of a normal state only where it is called.
pub fn normal_holds_only_calls()
    ensures { NormalHoldsOnlyCalls }
{}

/// A made definition is one whole at most, and it is one if none uses itself.
pub fn one_whole()
    ensures one { OneWhole }
    ensures there { WholeIsThere }
{}

/// The first blocked place of a state is one place, and is blocked in one way.
pub fn one_first_blocked()
    ensures { OneFirstBlocked }
{}
