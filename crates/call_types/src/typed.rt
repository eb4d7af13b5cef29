//! The type of a term that has one.
ghost use Rattle.std.specs.Prelude.{[], reverse, IfOk};
ghost use Rattle.chw_types.specs.TypeTree.{TypeTree};
ghost use Rattle.chw_typing.specs.Finding.{Finds};
ghost use Rattle.chw_typing.specs.Scopes.{setting_in};
ghost use Rattle.chw_typing.specs.Typing.{HasType};
ghost use Rattle.rewriting.specs.Origins.{origins_of, setting_at};
ghost use Rattle.rewriting.specs.Spots.{spot_of};
ghost use Rattle.rule_parts.specs.Cores.{HasTypeAt};
ghost use Rattle.term_types.specs.Answers.{IsReady};
ghost use Rattle.term_frames.specs.Signatures.{IsSignature};

use crate::calls::type_of_call;
use chw_base::NoMemory;
use chw_terms::{GapBuffer, Place, Scene, Term};
use chw_types::Ty;
use chw_typing::found_laws::typed_is_found;
use rewriting::scene_laws::settings_of_scenes;
use std::alloc::Global;
use term_types::{Signature, type_in_scope};

// The type that is found for a term that has one, with variables of these types in scope, the outermost first, and no type variables.
fn type_of_typed(
    alloc: Global,
    scene: &Scene,
    signature: &Signature,
    vars: &GapBuffer<Ty>,
    term: &Term,
) -> Result<Ty, NoMemory>
    requires ready { IsReady (setting_in scene.now) [] (reverse vars.now) }
    requires table { IsSignature scene.now.program.now signature.now }
    requires typed { (t : TypeTree) × HasType (setting_in scene.now) [] (reverse vars.now) term.now t }
    ensures { IfOk result (λ t. Finds (setting_in scene.now) [] (reverse vars.now) term.now t) }
{
    typed_is_found();
    if let Some(ty) = type_of_call(scene, vars, term) {
        return ty.copy(alloc);
    }
    match type_in_scope(alloc, scene, signature, vars, term)? {
        Some(ty) => Ok(ty),
        None => unreachable!(),
    }
}

/// The type that is found at a place for a term that has one there.
///
/// It is the one that `term_types::type_in_scope` finds, in less time: of a variable, a definition or a made definition on terms it is read
/// off the type of the head.
/// Where a number would pass 32 bits, the answer is want of memory.
pub fn type_at(
    alloc: Global,
    scene: &Scene,
    signature: &Signature,
    place: &Place,
    term: &Term,
) -> Result<Ty, NoMemory>
    requires ready { IsReady (setting_in scene.now) [] (reverse place.now.vars) }
    requires table { IsSignature scene.now.program.now signature.now }
    requires typed { HasTypeAt (origins_of scene.now) (spot_of place.now) term.now }
    ensures { IfOk result (λ t. Finds (setting_at (origins_of scene.now)) [] (spot_of place.now).vars term.now t) }
{
    settings_of_scenes();
    type_of_typed(alloc, scene, signature, &place.vars, term)
}
