//! The term below the leading lambdas of a made definition.
ghost use Rattle.std.specs.Prelude.{[], reverse, IfOk, IfSome};
ghost use Rattle.chw_typing.specs.Scopes.{Setting};
ghost use Rattle.rewriting.specs.Named.{mode_of};
ghost use Rattle.step_search.specs.FoundSteps.{LeadsToTyped};
ghost use Rattle.chw_norm.specs.GoingOn.{IsEntered, IsTopOf};

use active_parts::{enter, mode_of};
use chw_base::NoMemory;
use chw_terms::{GapBuffer, Head, Made, Place, Term};
use chw_types::{Ty, TyNode};
use flow_lets::joins;
use std::alloc::Global;

/// Where the term below the leading lambdas stands, and the path to it.
#[derive(Drop)]
pub(crate) struct Top {
    pub(crate) place: Place,
    pub(crate) path: Vec<u32>,
}

// Goes below the leading lambdas of a term, or below those that are left of them. Their variables are in scope then. The answer is whether
// a letrec joins the term there. It saves time alone, so nothing is claimed of it.
fn enter_top(
    alloc: Global,
    at: &Term,
    ty: &Ty,
    place: &mut Place,
    path: &mut Vec<u32>,
) -> Result<bool, NoMemory>
    requires typed { (s : Setting) × LeadsToTyped s place.old.mode (reverse place.old.vars) at.now ty.now }
    ensures { IfOk result (λ _. IsEntered place.old place.new path.old.items path.new.items at.now ty.now) }
{
    let TyNode::Fun(_, to) = &ty.node else {
        return Ok(joins(at, place));
    };
    let Head::Lam(of, body) = &at.head else {
        return Ok(false);
    };
    enter(place, vec![in alloc; of.copy(alloc)?]?)?;
    path.push(0)?;
    enter_top(alloc, body, to, place, path)
}

/// The term below the leading lambdas of a made definition, if a letrec joins it. Most steps leave none that does, and then its letrec needn't
/// be taken out of the body.
pub(crate) fn top_of(alloc: Global, it: &Made) -> Result<Option<Top>, NoMemory>
    requires typed { (s : Setting) × LeadsToTyped s (mode_of it.now.sort) [] it.now.body it.now.ty }
    ensures { IfOk result (λ r. IfSome r (λ top. IsTopOf it.now top.place top.path.items)) }
{
    let mut place = Place {
        mode: mode_of(it.sort),
        result: true,
        vars: GapBuffer::of(alloc, Vec::new(alloc)),
    };
    let mut path = Vec::new(alloc);
    let joined = enter_top(alloc, &it.body, &it.ty, &mut place, &mut path)?;
    if !joined {
        return Ok(None);
    }
    Ok(Some(Top { place, path }))
}
