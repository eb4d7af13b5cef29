//! The search below a place: the place itself, and then its parts in the order of their paths.
ghost use Rattle.std.specs.Prelude.{◌≡◌, reverse, IfOk, OnOk};
ghost use Rattle.chw_typing.specs.Scopes.{setting_in};
ghost use Rattle.rewriting.specs.Origins.{origins_of};
ghost use Rattle.rewriting.specs.Active.{Below, IsActive};
ghost use Rattle.rewriting.specs.Spots.{spot_of};
ghost use Rattle.trials.specs.Trials.{built};
ghost use Rattle.active_parts.specs.Grounds.{IsGround, IsTypedAt};
ghost use Rattle.step_search.specs.First.{adds_to, AtPath, FindsFirst, From};
ghost use Rattle.step_search.specs.Passed.{ArePassedParts};
ghost use Rattle.step_search.specs.SeenPaths.{LooksAtPaths};
ghost use Rattle.active_parts.specs.Parts.{path_to, around, arguments_of, spot_in, IsAmong, IsInside, AreAmongFirst, AreAmongArguments};

use crate::passing::{first_sought, is_quiet_part};
use crate::paths::begin_at;
use crate::trail::{Trail, behind};
use active_parts::{
    Ground, Part, SpareTypes, count_parts, enter, enter_group_again, group_around_parts, leave,
    leave_with_spare, part_at, path_to,
};
use chw_base::NoMemory;
use chw_terms::{Place, Term};
use made_table::Table;
use std::alloc::Global;
use std::mem;
use trials::Rules;

/// The first step at a place or below it. The place is the same afterwards.
#[cycle(search)]
pub(crate) fn first_from<R: Rules>(
    alloc: Global,
    table: &Table,
    ground: &Ground,
    at: &Term,
    place: &mut Place,
    from: &[u32],
    spare: &mut SpareTypes,
    rules: &mut R,
) -> Result<Option<Trail>, NoMemory>
    requires ground { IsGround ground.now }
    requires same { ground.now.scene.now.made.now ≡ table.now }
    requires typed { IsTypedAt (setting_in ground.now.scene.now) (spot_of place.old) at.now }
    ensures first { IfOk result (FindsFirst built (origins_of ground.now.scene.now) (adds_to ground.now.scene.now) (IsActive (origins_of ground.now.scene.now) (spot_of place.old) at.now) from.now) }
    ensures place { OnOk result (place.new ≡ place.old) }
    ensures looks { LooksAtPaths built (origins_of ground.now.scene.now) (IsActive (origins_of ground.now.scene.now) (spot_of place.old) at.now) from.now (R.looks rules.old) (R.looks rules.new) }
{
    if let Some(trial) = rules.first_rule(
        alloc,
        table,
        ground.scene,
        ground.signature,
        at,
        place,
    )? {
        return Ok(Some(Trail {
            back: Vec::new(alloc),
            trial,
        }));
    }
    below(alloc, table, ground, at, place, from, spare, rules)
}

// The first step below a place.
#[cycle(search)]
fn below<R: Rules>(
    alloc: Global,
    table: &Table,
    ground: &Ground,
    at: &Term,
    place: &mut Place,
    from: &[u32],
    spare: &mut SpareTypes,
    rules: &mut R,
) -> Result<Option<Trail>, NoMemory>
    requires ground { IsGround ground.now }
    requires same { ground.now.scene.now.made.now ≡ table.now }
    requires typed { IsTypedAt (setting_in ground.now.scene.now) (spot_of place.old) at.now }
    ensures first { IfOk result (FindsFirst built (origins_of ground.now.scene.now) (adds_to ground.now.scene.now) (From (origins_of ground.now.scene.now) (Below (origins_of ground.now.scene.now) (spot_of place.old) at.now)) from.now) }
    ensures place { OnOk result (place.new ≡ place.old) }
    ensures looks { LooksAtPaths built (origins_of ground.now.scene.now) (From (origins_of ground.now.scene.now) (Below (origins_of ground.now.scene.now) (spot_of place.old) at.now)) from.now (R.looks rules.old) (R.looks rules.new) }
{
    let count = count_parts(place.mode, at);
    let first = first_sought(at, count, from)?;
    if first == count {
        return Ok(None);
    }
    let outside = place.vars.len();
    enter_group_again(alloc, place, group_around_parts(at), spare)?;
    let found = first_part(
        alloc, table, ground, at, first, count, place, from, spare, rules,
    )?;
    leave_with_spare(alloc, place, outside, spare)?;
    Ok(found)
}

// The first step at or below so many parts of a term, all of them that come into question. The search passes over those before the first
// one. The variables that the term brings for all of its parts are in scope.
#[cycle(search)]
fn first_part<R: Rules>(
    alloc: Global,
    table: &Table,
    ground: &Ground,
    at: &Term,
    first: usize,
    count: usize,
    place: &mut Place,
    from: &[u32],
    spare: &mut SpareTypes,
    rules: &mut R,
) -> Result<Option<Trail>, NoMemory>
    requires ground { IsGround ground.now }
    requires same { ground.now.scene.now.made.now ≡ table.now }
    requires inside { IsInside place.old at.now }
    requires typed { IsTypedAt (setting_in ground.now.scene.now) (around place.old at.now) at.now }
    requires all { AreAmongFirst place.old.mode at.now count }
    requires arguments { AreAmongArguments at.now count }
    requires passed { ArePassedParts built at.now from.now first }
    ensures first { IfOk result (FindsFirst built (origins_of ground.now.scene.now) (adds_to ground.now.scene.now) (From (origins_of ground.now.scene.now) (Below (origins_of ground.now.scene.now) (around place.old at.now) at.now)) from.now) }
    ensures place { OnOk result (place.new ≡ place.old) }
    ensures looks { LooksAtPaths built (origins_of ground.now.scene.now) (From (origins_of ground.now.scene.now) (Below (origins_of ground.now.scene.now) (around place.old at.now) at.now)) from.now (R.looks rules.old) (R.looks rules.new) }
{
    for number in first..count {
        let found = in_part(alloc, table, ground, at, number, place, from, spare, rules)?;
        if found.is_some() {
            return Ok(found);
        }
    }
    Ok(None)
}

// The first step at or below the part of this number.
#[cycle(search)]
fn in_part<R: Rules>(
    alloc: Global,
    table: &Table,
    ground: &Ground,
    at: &Term,
    number: usize,
    place: &mut Place,
    from: &[u32],
    spare: &mut SpareTypes,
    rules: &mut R,
) -> Result<Option<Trail>, NoMemory>
    requires ground { IsGround ground.now }
    requires same { ground.now.scene.now.made.now ≡ table.now }
    requires inside { IsInside place.old at.now }
    requires typed { IsTypedAt (setting_in ground.now.scene.now) (around place.old at.now) at.now }
    requires number { IsAmong (arguments_of at.now) number }
    ensures first { IfOk result (FindsFirst built (origins_of ground.now.scene.now) (adds_to ground.now.scene.now) (From (origins_of ground.now.scene.now) (AtPath (Below (origins_of ground.now.scene.now) (around place.old at.now) at.now) (path_to at.now number))) from.now) }
    ensures place { OnOk result (place.new ≡ place.old) }
    ensures looks { LooksAtPaths built (origins_of ground.now.scene.now) (From (origins_of ground.now.scene.now) (AtPath (Below (origins_of ground.now.scene.now) (around place.old at.now) at.now) (path_to at.now number))) from.now (R.looks rules.old) (R.looks rules.new) }
{
    let path = path_to(at.args.len(), number)?;
    let Some(left) = begin_at(from, path) else {
        return Ok(None);
    };
    if is_quiet_part(at, number) {
        return Ok(None);
    }
    let Some(part) = part_at(alloc, ground, at, number, place)? else {
        return Ok(None);
    };
    let found = first_at(alloc, table, ground, part, place, left, spare, rules)?;
    behind(found, path)
}

// The first step at or below a part.
#[cycle(search)]
fn first_at<R: Rules>(
    alloc: Global,
    table: &Table,
    ground: &Ground,
    part: Part,
    place: &mut Place,
    from: &[u32],
    spare: &mut SpareTypes,
    rules: &mut R,
) -> Result<Option<Trail>, NoMemory>
    requires ground { IsGround ground.now }
    requires same { ground.now.scene.now.made.now ≡ table.now }
    requires typed { IsTypedAt (setting_in ground.now.scene.now) (spot_in (reverse place.old.vars) part) part.term.now }
    ensures first { IfOk result (FindsFirst built (origins_of ground.now.scene.now) (adds_to ground.now.scene.now) (IsActive (origins_of ground.now.scene.now) (spot_in (reverse place.old.vars) part.entry) part.entry.term.now) from.now) }
    ensures place { OnOk result (place.new ≡ place.old) }
    ensures looks { LooksAtPaths built (origins_of ground.now.scene.now) (IsActive (origins_of ground.now.scene.now) (spot_in (reverse place.old.vars) part.entry) part.entry.term.now) from.now (R.looks rules.old) (R.looks rules.new) }
{
    let Part {
        term,
        mode,
        gives,
        more,
    } = part;
    let outside = place.vars.len();
    let outer_mode = mem::replace(&mut place.mode, mode);
    let outer_result = mem::replace(&mut place.result, gives);
    enter(place, more)?;
    let found = first_from(alloc, table, ground, term, place, from, spare, rules)?;
    leave(place, outside);
    place.mode = outer_mode;
    place.result = outer_result;
    Ok(found)
}
