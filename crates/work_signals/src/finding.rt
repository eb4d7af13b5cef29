//! The types that are found for functions and for signals.
ghost use Rattle.std.specs.Prelude.{◌≡◌, [], reverse, IfOk, MatchOption};
ghost use Rattle.chw_types.specs.TypeTree.{TypeTree, fun, signal};
ghost use Rattle.chw_typing.specs.Scopes.{setting_in};
ghost use Rattle.rewriting.specs.Origins.{origins_of};
ghost use Rattle.rewriting.specs.Spots.{spot_of};
ghost use Rattle.term_types.specs.Answers.{IsReady};
ghost use Rattle.term_frames.specs.Signatures.{IsSignature};
ghost use Rattle.work_signals.specs.Joined.{AnswersType, AnswersFunction, AnswersPayload, AnswersLifted};

use chw_base::NoMemory;
use chw_terms::{Place, Scene, Term};
use chw_types::{Ty, TyNode};
use chw_typing::found_laws::{found_is_type, one_found};
use rewriting::scene_laws::settings_of_scenes;
use std::alloc::Global;
use term_types::{Signature, type_in_scope};

// The type of a term at a place.
fn type_at(
    alloc: Global,
    scene: &Scene,
    signature: &Signature,
    place: &Place,
    term: &Term,
) -> Result<Option<Ty>, NoMemory>
    requires ready { IsReady (setting_in scene.now) [] (reverse place.now.vars) }
    requires table { IsSignature scene.now.program.now signature.now }
    ensures { IfOk result (AnswersType (origins_of scene.now) (spot_of place.now) term.now) }
{
    settings_of_scenes();
    found_is_type();
    type_in_scope(alloc, scene, signature, &place.vars, term)
}

// The parameter and the result of a type of functions.
fn function_parts(ty: Ty) -> Option<(Ty, Ty)>
    ensures { MatchOption result ((t u : TypeTree) → ty ≡ fun t u → ⊥) (λ p. ty ≡ fun p.0 p.1) }
{
    match ty.node {
        TyNode::Fun(from, to) => Some((Box::into_inner(from), Box::into_inner(to))),
        _ => None,
    }
}

// The payload of a type of signals.
fn payload(ty: Ty) -> Option<Ty>
    ensures { MatchOption result ((i t : TypeTree) → ty ≡ signal i t → ⊥) (λ t. (i : TypeTree) × (ty ≡ signal i t)) }
{
    match ty.node {
        TyNode::Signal(_, of) => Some(Box::into_inner(of)),
        _ => None,
    }
}

/// The parameter and the result of a function's type.
pub(crate) fn function_type(
    alloc: Global,
    scene: &Scene,
    signature: &Signature,
    place: &Place,
    term: &Term,
) -> Result<Option<(Ty, Ty)>, NoMemory>
    requires ready { IsReady (setting_in scene.now) [] (reverse place.now.vars) }
    requires table { IsSignature scene.now.program.now signature.now }
    ensures { IfOk result (AnswersFunction (origins_of scene.now) (spot_of place.now) term.now) }
{
    one_found();
    match type_at(alloc, scene, signature, place, term)? {
        Some(ty) => Ok(function_parts(ty)),
        None => Ok(None),
    }
}

/// The payload of a signal's type.
pub(crate) fn payload_type(
    alloc: Global,
    scene: &Scene,
    signature: &Signature,
    place: &Place,
    term: &Term,
) -> Result<Option<Ty>, NoMemory>
    requires ready { IsReady (setting_in scene.now) [] (reverse place.now.vars) }
    requires table { IsSignature scene.now.program.now signature.now }
    ensures { IfOk result (AnswersPayload (origins_of scene.now) (spot_of place.now) term.now) }
{
    one_found();
    match type_at(alloc, scene, signature, place, term)? {
        Some(ty) => Ok(payload(ty)),
        None => Ok(None),
    }
}

/// The parameter and the result of the type of a signal of functions.
pub(crate) fn lifted_type(
    alloc: Global,
    scene: &Scene,
    signature: &Signature,
    place: &Place,
    term: &Term,
) -> Result<Option<(Ty, Ty)>, NoMemory>
    requires ready { IsReady (setting_in scene.now) [] (reverse place.now.vars) }
    requires table { IsSignature scene.now.program.now signature.now }
    ensures { IfOk result (AnswersLifted (origins_of scene.now) (spot_of place.now) term.now) }
{
    one_found();
    match payload_type(alloc, scene, signature, place, term)? {
        Some(ty) => Ok(function_parts(ty)),
        None => Ok(None),
    }
}
