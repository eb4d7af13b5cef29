//! The first limit that is passed at a place.
ghost use Rattle.std.specs.Prelude.{◌≡◌, [], reverse, IfOk};
ghost use Rattle.chw_terms.specs.TermTree.{TermTree, letrec, prim};
ghost use Rattle.chw_terms.specs.TermView.{group_of, applied};
ghost use Rattle.chw_typing.specs.Scopes.{setting_in};
ghost use Rattle.rewriting.specs.Origins.{origins_of};
ghost use Rattle.rewriting.specs.Spots.{spot_of};
ghost use Rattle.term_types.specs.Answers.{IsReady};
ghost use Rattle.term_frames.specs.Signatures.{IsSignature};
ghost use Rattle.blocked_places.specs.Firsts.{FindsOf};
ghost use Rattle.blocked_places.specs.Limits.{TypePasses, FindsPartLimit, FindsLimit};

use crate::sizes::first_size;
use crate::types::{schema_of, sizes_count, types_given};
use crate::widths::{first_binding, passed};
use chw_base::NoMemory;
use chw_layout::NoLayout;
use chw_prims::Prim;
use chw_terms::{Arg, Head, Place, Scene, Term};
use chw_typing::found_laws::{found_is_type, one_found};
use rewriting::scene_laws::settings_of_scenes;
use std::alloc::Global;
use term_types::{Signature, type_in_scope};
use type_widths::Widths;

// The limit that the type of a term passes.
fn type_limit(
    alloc: Global,
    scene: &Scene,
    signature: &Signature,
    widths: &mut Widths<'_>,
    place: &Place,
    at: &Term,
) -> Result<Option<NoLayout>, NoMemory>
    requires ready { IsReady (setting_in scene.now) [] (reverse place.now.vars) }
    requires table { IsSignature scene.now.program.now signature.now }
    requires widths { widths.old ≡ scene.now.program.now.datas }
    ensures limit { IfOk result (FindsOf TermTree (TypePasses (origins_of scene.now) (spot_of place.now)) at.now) }
    ensures same { widths.new ≡ widths.old }
{
    settings_of_scenes();
    found_is_type();
    one_found();
    let Some(ty) = type_in_scope(alloc, scene, signature, &place.vars, at)? else {
        return Ok(None);
    };
    passed(alloc, widths, &ty)
}

// The limit of the first size of a primitive on these arguments that passes one, where its sizes count.
fn size_limit(
    alloc: Global,
    scene: &Scene,
    signature: &Signature,
    place: &Place,
    which: Prim,
    args: &[Arg],
) -> Result<Option<NoLayout>, NoMemory>
    requires { IsSignature scene.now.program.now signature.now }
    ensures { IfOk result (FindsPartLimit (origins_of scene.now) (spot_of place.now) (applied (prim which) args.now)) }
{
    if !sizes_count(place, which) {
        return Ok(None);
    }
    let schema = schema_of(signature, which);
    let Some(types) = types_given(alloc, schema, args)? else {
        return Ok(None);
    };
    first_size(alloc, schema, &types)
}

// The limit that is passed first by a binding of a letrec or a size of a primitive.
fn part_limit(
    alloc: Global,
    scene: &Scene,
    signature: &Signature,
    widths: &mut Widths<'_>,
    place: &Place,
    at: &Term,
) -> Result<Option<NoLayout>, NoMemory>
    requires table { IsSignature scene.now.program.now signature.now }
    requires widths { widths.old ≡ scene.now.program.now.datas }
    ensures limit { IfOk result (FindsPartLimit (origins_of scene.now) (spot_of place.now) at.now) }
    ensures same { widths.new ≡ widths.old }
{
    match &at.head {
        Head::PrimOf(which) => size_limit(alloc, scene, signature, place, *which, &at.args),
        Head::LetRec(bindings, _) => {
            if !at.args.is_empty() {
                return Ok(None);
            }
            first_binding(alloc, widths, bindings)
        }
        _ => Ok(None),
    }
}

/// The first limit that is passed at a place: by the term's own type, or else by a binding of a letrec or a size of a primitive.
pub(crate) fn limit_at(
    alloc: Global,
    scene: &Scene,
    signature: &Signature,
    widths: &mut Widths<'_>,
    place: &Place,
    at: &Term,
) -> Result<Option<NoLayout>, NoMemory>
    requires ready { IsReady (setting_in scene.now) [] (reverse place.now.vars) }
    requires table { IsSignature scene.now.program.now signature.now }
    requires widths { widths.old ≡ scene.now.program.now.datas }
    ensures limit { IfOk result (FindsLimit (origins_of scene.now) (spot_of place.now) at.now) }
    ensures same { widths.new ≡ widths.old }
{
    let own = type_limit(alloc, scene, signature, widths, place, at)?;
    if own.is_some() {
        return Ok(own);
    }
    part_limit(alloc, scene, signature, widths, place, at)
}
