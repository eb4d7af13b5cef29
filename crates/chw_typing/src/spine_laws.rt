//! Laws of the types of spines, each as the contract of a call that does nothing.
ghost use Rattle.chw_typing.specs.SpineLaws.{SpineIsTyped, SpineKeepsKind, HeadMayChange, SchemaAtArguments, ConAtArguments, PrimAtArguments, SpineIsSaturated, ConIsSaturated, LetOfArguments};

/// A spine has a type exactly where its head has one that leads to it along the arguments.
pub fn spines_are_typed()
    ensures { SpineIsTyped }
{}

/// A spine's type has the kind of its head's type.
pub fn spines_keep_kinds()
    ensures { SpineKeepsKind }
{}

/// A spine keeps its type, up to naturals, where another head has each type of the head, up to naturals.
pub fn heads_may_change()
    ensures { HeadMayChange }
{}

/// What the type of a head asks for, its arguments have, where they are as many; so at a constructor and at a primitive.
pub fn saturated_spines()
    ensures schema { SchemaAtArguments }
    ensures con { ConAtArguments }
    ensures prim { PrimAtArguments }
{}

/// A spine whose type asks for nothing more has all that its head's type asks for.
pub fn spines_are_saturated()
    ensures spine { SpineIsSaturated }
    ensures con { ConIsSaturated }
{}

/// A letrec that binds arguments has its body's type.
pub fn lets_of_arguments()
    ensures { LetOfArguments }
{}
