//! Whether the type of a term is named at its place.
ghost use Rattle.std.specs.Prelude.{◌↔◌, [], reverse, IfOk, IsTrue};
ghost use Rattle.chw_typing.specs.Scopes.{setting_in, AreTermTypes};
ghost use Rattle.rewriting.specs.Origins.{origins_of};
ghost use Rattle.rewriting.specs.Spots.{spot_of};
ghost use Rattle.active_parts.specs.Below.{IsUnnamed};
ghost use Rattle.active_parts.specs.Grounds.{IsGround};

use crate::ground::Ground;
use chw_base::NoMemory;
use chw_terms::{Place, Term};
use chw_typing::found_laws::found_is_type;
use chw_typing::laws::{one_type, types_are_term_types};
use rewriting::scene_laws::{names_of_modes, settings_of_scenes};
use rule_parts::named::is_named;
use std::alloc::Global;
use term_types::type_in_scope;

/// Whether a term has a type, and none that is named at the place.
pub(crate) fn is_unnamed(
    alloc: Global,
    ground: &Ground,
    at: &Term,
    place: &Place,
) -> Result<bool, NoMemory>
    requires ground { IsGround ground.now }
    requires scope { AreTermTypes (setting_in ground.now.scene.now) [] (reverse place.now.vars) }
    ensures { IfOk result (λ is. IsTrue is ↔ IsUnnamed (origins_of ground.now.scene.now) (spot_of place.now) at.now) }
{
    settings_of_scenes();
    found_is_type();
    one_type();
    types_are_term_types();
    names_of_modes();
    let Some(ty) = type_in_scope(alloc, ground.scene, ground.signature, &place.vars, at)? else {
        return Ok(false);
    };
    let datas = ground.scene.program.datas.as_slice();
    Ok(!is_named(alloc, datas, place.mode, &ty)?)
}
