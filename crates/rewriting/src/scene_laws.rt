//! The laws, each as the contract of a call that does nothing.
ghost use Rattle.rewriting.specs.SceneLaws.{SettingOfScene, TypedSceneIsSound, SameKeepsNamed, NamedIsTermKind, NamedIsDecided, PutMadeKeepsType, NoMadeKeepsType, OriginNeedsProgram, OriginKeepsType, OneUnderLambdas};

use chw_typing::laws::typed_is_sound;
use chw_typing::like_laws::same_types_keep_names;
use chw_typing::named_laws::{kinds_of_named_types, named_types_are_decided};

/// Terms of a scene are typed over its program and the types of its made definitions. In a typed scene that is as the laws of types ask.
pub fn settings_of_scenes()
    ensures setting { SettingOfScene }
    ensures sound { TypedSceneIsSound }
{
    typed_is_sound();
}

/// Closed types that are the same up to naturals are named in the same modes. One that is named has the kind of its mode, and it is decided
/// whether one is.
pub fn names_of_modes()
    ensures kept { SameKeepsNamed }
    ensures kind { NamedIsTermKind }
    ensures decided { NamedIsDecided }
{
    same_types_keep_names();
    kinds_of_named_types();
    named_types_are_decided();
}

/// A term keeps its type, up to naturals, where closed terms of their types are put for the made definitions. Where none occurs, none is
/// needed.
pub fn made_definitions_replaced()
    ensures put { PutMadeKeepsType }
    ensures none { NoMadeKeepsType }
{}

/// So a term of a typed scene with its made definitions replaced by their origins has its type over the program alone, and in the scene.
pub fn origins_keep_types()
    ensures alone { OriginNeedsProgram }
    ensures scene { OriginKeepsType }
{
    typed_is_sound();
}

/// Below the leading lambdas there is one place.
pub fn one_under_lambdas()
    ensures { OneUnderLambdas }
{}
