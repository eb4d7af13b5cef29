//! The elements of a vector, which are places in a constant.
ghost use Rattle.std.specs.Prelude.{[], ◌∷◌, reverse, IfOk};
ghost use Rattle.chw_terms.specs.TermTree.{vec_lit};
ghost use Rattle.chw_terms.specs.TermView.{terms_of};
ghost use Rattle.rewriting.specs.Origins.{Origins};
ghost use Rattle.rewriting.specs.Spots.{spot_of};
ghost use Rattle.active_parts.specs.Parts.{FindsPart};

use crate::modes::is_constant;
use crate::parts::Part;
use chw_terms::{Mode, Place, Term};
use chw_types::Ty;
use std::alloc::Global;

/// The element of this number, where it is a place.
pub(crate) fn element<'t>(
    alloc: Global,
    ty: &Ty,
    elements: &'t [Term],
    number: usize,
    place: &Place,
) -> Option<Part<'t>>
    ensures { (o : Origins) → FindsPart o (spot_of place.now) (vec_lit ty.now (terms_of elements.now)) (number ∷ []) (reverse place.now.vars) result }
{
    if !is_constant(place.mode) {
        return None;
    }
    let Some(term) = elements.get(number) else {
        return None;
    };
    let more = Vec::new(alloc);
    Some(Part {
        term,
        mode: Mode::K,
        gives: false,
        more,
    })
}
