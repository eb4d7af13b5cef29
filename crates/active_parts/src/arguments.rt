//! The arguments of constructors and primitives that are places.
ghost use Rattle.std.specs.Prelude.{◌≡◌, ◌↔◌, [], length, reverse, IfOk, IsTrue, slice_get, Some};
ghost use Rattle.chw_terms.specs.declared.term.Arg.TheVariants.{OfTerm};
ghost use Rattle.chw_terms.specs.TermTree.{con, prim};
ghost use Rattle.chw_terms.specs.TermView.{applied};
ghost use Rattle.chw_typing.specs.HeadTypes.{con_type};
ghost use Rattle.chw_typing.specs.Scopes.{setting_in, AreTermTypes};
ghost use Rattle.con_places.specs.Constructing.{constructor_of};
ghost use Rattle.chw_typing.specs.Paths.{argument_path};
ghost use Rattle.rewriting.specs.Origins.{origins_of};
ghost use Rattle.rewriting.specs.Spots.{spot_of, asked_for};
ghost use Rattle.active_parts.specs.Grounds.{IsGround};
ghost use Rattle.active_parts.specs.Parts.{FindsPart};

use crate::demands::mode_at;
use crate::ground::Ground;
use crate::modes::is_constant;
use crate::parts::Part;
use chw_base::{ConId, NoMemory};
use chw_prims::Prim;
use chw_terms::{Arg, Mode, Place, Term};
use con_places::Constructor;
use std::alloc::Global;

// Whether a constructor has as many arguments as it asks for.
fn is_saturated(con: &Constructor, args: &[Arg]) -> bool
    ensures { IsTrue result ↔ length args.now ≡ asked_for (con_type (constructor_of con.now)) }
{
    let types = con.it.params.len();
    types <= args.len() && args.len() - types == con.decl.fields.len()
}

/// This argument of a constructor, where it is a place: in a constant, if the constructor has all of its arguments.
pub(crate) fn constant_argument<'t>(
    alloc: Global,
    ground: &Ground,
    of: ConId,
    args: &[Arg],
    number: usize,
    at: &'t Term,
    place: &Place,
) -> Option<Part<'t>>
    requires ground { IsGround ground.now }
    requires is { slice_get args.now number ≡ Some (OfTerm at.now) }
    ensures { FindsPart (origins_of ground.now.scene.now) (spot_of place.now) (applied (con of.number) args.now) (argument_path number (length args.now)) (reverse place.now.vars) result }
{
    if !is_constant(place.mode) {
        return None;
    }
    let Some(it) = ground.signature.constructors.at(of) else {
        return None;
    };
    if !is_saturated(&it, args) {
        return None;
    }
    let more = Vec::new(alloc);
    Some(Part {
        term: at,
        mode: Mode::K,
        gives: false,
        more,
    })
}

/// This argument of a primitive, where it is a place.
pub(crate) fn primitive_argument<'t>(
    alloc: Global,
    ground: &Ground,
    which: Prim,
    args: &[Arg],
    number: usize,
    at: &'t Term,
    place: &Place,
) -> Result<Option<Part<'t>>, NoMemory>
    requires ground { IsGround ground.now }
    requires scope { AreTermTypes (setting_in ground.now.scene.now) [] (reverse place.now.vars) }
    requires is { slice_get args.now number ≡ Some (OfTerm at.now) }
    ensures { IfOk result (FindsPart (origins_of ground.now.scene.now) (spot_of place.now) (applied (prim which) args.now) (argument_path number (length args.now)) (reverse place.now.vars)) }
{
    let Some(mode) = mode_at(alloc, ground, which, args, number, at, place)? else {
        return Ok(None);
    };
    let more = Vec::new(alloc);
    Ok(Some(Part {
        term: at,
        mode,
        gives: false,
        more,
    }))
}
