//! The search in the body of a made definition, below its leading lambdas.
ghost use Rattle.std.specs.Prelude.{◌≡◌, [], reverse, true, IfOk};
ghost use Rattle.chw_typing.specs.Scopes.{setting_in};
ghost use Rattle.rewriting.specs.Named.{mode_of};
ghost use Rattle.rewriting.specs.Origins.{origins_of};
ghost use Rattle.trials.specs.Trials.{built};
ghost use Rattle.step_search.specs.Lambdas.{under_lambdas};
ghost use Rattle.step_search.specs.First.{adds_to, FindsFirst};
ghost use Rattle.active_parts.specs.Grounds.{IsGround};
ghost use Rattle.step_search.specs.FoundSteps.{LeadsToTyped};
ghost use Rattle.step_search.specs.SeenPaths.{LooksAtPaths};

use crate::paths::begin_at_child;
use crate::search::first_from;
use crate::trail::{Trail, behind_child};
use active_parts::{Ground, SpareTypes, enter, mode_of};
use chw_base::NoMemory;
use chw_terms::{GapBuffer, Head, Made, Place, Term};
use chw_types::{Ty, TyNode};
use made_table::Table;
use std::alloc::Global;
use trials::Rules;

// The first step below the leading lambdas of a term, or below those that are left of them. Afterwards their variables are in scope.
fn under_lambdas<R: Rules>(
    alloc: Global,
    table: &Table,
    ground: &Ground,
    at: &Term,
    ty: &Ty,
    place: &mut Place,
    from: &[u32],
    spare: &mut SpareTypes,
    rules: &mut R,
) -> Result<Option<Trail>, NoMemory>
    requires ground { IsGround ground.now }
    requires same { ground.now.scene.now.made.now ≡ table.now }
    requires result { place.old.result ≡ true }
    requires typed { LeadsToTyped (setting_in ground.now.scene.now) place.old.mode (reverse place.old.vars) at.now ty.now }
    ensures first { IfOk result (FindsFirst built (origins_of ground.now.scene.now) (adds_to ground.now.scene.now) (under_lambdas (origins_of ground.now.scene.now) place.old.mode (reverse place.old.vars) at.now ty.now) from.now) }
    ensures looks { LooksAtPaths built (origins_of ground.now.scene.now) (under_lambdas (origins_of ground.now.scene.now) place.old.mode (reverse place.old.vars) at.now ty.now) from.now (R.looks rules.old) (R.looks rules.new) }
{
    let TyNode::Fun(_, to) = &ty.node else {
        return first_from(alloc, table, ground, at, place, from, spare, rules);
    };
    let Head::Lam(of, body) = &at.head else {
        return Ok(None);
    };
    let Some(left) = begin_at_child(from, 0) else {
        return Ok(None);
    };
    enter(place, vec![in alloc; of.copy(alloc)?]?)?;
    let found = under_lambdas(alloc, table, ground, body, to, place, left, spare, rules)?;
    behind_child(found, 0)
}

/// The first step in the body of a made definition.
pub(crate) fn in_made<R: Rules>(
    alloc: Global,
    table: &Table,
    ground: &Ground,
    it: &Made,
    from: &[u32],
    spare: &mut SpareTypes,
    rules: &mut R,
) -> Result<Option<Trail>, NoMemory>
    requires ground { IsGround ground.now }
    requires same { ground.now.scene.now.made.now ≡ table.now }
    requires typed { LeadsToTyped (setting_in ground.now.scene.now) (mode_of it.now.sort) [] it.now.body it.now.ty }
    ensures first { IfOk result (FindsFirst built (origins_of ground.now.scene.now) (adds_to ground.now.scene.now) (under_lambdas (origins_of ground.now.scene.now) (mode_of it.now.sort) [] it.now.body it.now.ty) from.now) }
    ensures looks { LooksAtPaths built (origins_of ground.now.scene.now) (under_lambdas (origins_of ground.now.scene.now) (mode_of it.now.sort) [] it.now.body it.now.ty) from.now (R.looks rules.old) (R.looks rules.new) }
{
    let mut place = Place {
        mode: mode_of(it.sort),
        result: true,
        vars: GapBuffer::of(alloc, Vec::new(alloc)),
    };
    under_lambdas(
        alloc, table, ground, &it.body, &it.ty, &mut place, from, spare, rules,
    )
}
