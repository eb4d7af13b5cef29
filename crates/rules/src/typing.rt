//! Whether a term has a type at a place.
ghost use Rattle.std.specs.Prelude.{◌↔◌, [], reverse, IfOk, IsTrue};
ghost use Rattle.chw_typing.specs.Scopes.{setting_in};
ghost use Rattle.rewriting.specs.Origins.{origins_of};
ghost use Rattle.rewriting.specs.Spots.{spot_of};
ghost use Rattle.term_types.specs.Answers.{IsReady};
ghost use Rattle.term_frames.specs.Signatures.{IsSignature};
ghost use Rattle.rule_parts.specs.Cores.{HasTypeAt};

use chw_base::NoMemory;
use chw_terms::{Place, Scene, Term};
use chw_typing::found_laws::found_is_type;
use rewriting::scene_laws::settings_of_scenes;
use std::alloc::Global;
use term_types::{Signature, type_in_scope};

/// Whether a term has a type at a place.
///
/// The scene is sound, as that of every typed program is, and terms have the types of the variables in scope at the place. The
/// signature is that of the scene's program. Where a number would pass 32 bits, the answer is want of memory.
pub fn is_typed(
    alloc: Global,
    scene: &Scene,
    signature: &Signature,
    at: &Term,
    place: &Place,
) -> Result<bool, NoMemory>
    requires ready { IsReady (setting_in scene.now) [] (reverse place.now.vars) }
    requires table { IsSignature scene.now.program.now signature.now }
    ensures { IfOk result (λ yes. IsTrue yes ↔ HasTypeAt (origins_of scene.now) (spot_of place.now) at.now) }
{
    settings_of_scenes();
    found_is_type();
    let found = type_in_scope(alloc, scene, signature, &place.vars, at)?;
    Ok(found.is_some())
}
