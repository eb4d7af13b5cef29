//! The walk below a place: the place itself, and then its parts in the order of their paths.
ghost use Rattle.std.specs.Prelude.{◌≡◌, reverse, IfOk, OnOk};
ghost use Rattle.chw_typing.specs.Scopes.{setting_in};
ghost use Rattle.rewriting.specs.Origins.{origins_of};
ghost use Rattle.rewriting.specs.Spots.{spot_of};
ghost use Rattle.active_parts.specs.Grounds.{IsGround, IsTypedAt};
ghost use Rattle.active_parts.specs.Parts.{path_to, around, arguments_of, spot_in, IsAmong, IsInside, AreAmongFirst, AreAmongArguments};
ghost use Rattle.blocked_places.specs.Walks.{FindsFirst, IsActiveBlock, IsBlockBelow, IsBlockAtPart};

use crate::block::block_at;
use crate::trail::{Trail, behind};
use active_parts::{
    Ground, Part, count_parts, enter, enter_group, group_around_parts, leave, part_at, path_to,
};
use chw_base::NoMemory;
use chw_terms::{Place, Term};
use std::alloc::Global;
use std::mem;
use type_widths::Widths;

/// What blocks first at a place or below it. The place is the same afterwards. The widths are over
/// the data types of the ground.
#[cycle(walk)]
pub(crate) fn first_from(
    alloc: Global,
    ground: &Ground,
    widths: &mut Widths<'_>,
    at: &Term,
    place: &mut Place,
) -> Result<Option<Trail>, NoMemory>
    requires ground { IsGround ground.now }
    requires typed { IsTypedAt (setting_in ground.now.scene.now) (spot_of place.old) at.now }
    requires widths { widths.old ≡ ground.now.scene.now.program.now.datas }
    ensures first { IfOk result (FindsFirst (IsActiveBlock (origins_of ground.now.scene.now) (spot_of place.old) at.now)) }
    ensures place { OnOk result (place.new ≡ place.old) }
    ensures same { widths.new ≡ widths.old }
{
    if let Some(block) = block_at(alloc, ground.scene, ground.signature, widths, place, at)? {
        return Ok(Some(Trail {
            back: Vec::new(alloc),
            block,
        }));
    }
    below(alloc, ground, widths, at, place)
}

// What blocks first below a place.
#[cycle(walk)]
fn below(
    alloc: Global,
    ground: &Ground,
    widths: &mut Widths<'_>,
    at: &Term,
    place: &mut Place,
) -> Result<Option<Trail>, NoMemory>
    requires ground { IsGround ground.now }
    requires typed { IsTypedAt (setting_in ground.now.scene.now) (spot_of place.old) at.now }
    requires widths { widths.old ≡ ground.now.scene.now.program.now.datas }
    ensures first { IfOk result (FindsFirst (IsBlockBelow (origins_of ground.now.scene.now) (spot_of place.old) at.now)) }
    ensures place { OnOk result (place.new ≡ place.old) }
    ensures same { widths.new ≡ widths.old }
{
    let count = count_parts(place.mode, at);
    if count == 0 {
        return Ok(None);
    }
    let outside = place.vars.len();
    enter_group(alloc, place, group_around_parts(at))?;
    let found = first_part(alloc, ground, widths, at, count, place)?;
    leave(place, outside);
    Ok(found)
}

// What blocks first at or below so many parts of a term, all of them that come into question. The variables that the term brings for all
// of its parts are in scope.
#[cycle(walk)]
fn first_part(
    alloc: Global,
    ground: &Ground,
    widths: &mut Widths<'_>,
    at: &Term,
    count: usize,
    place: &mut Place,
) -> Result<Option<Trail>, NoMemory>
    requires ground { IsGround ground.now }
    requires inside { IsInside place.old at.now }
    requires typed { IsTypedAt (setting_in ground.now.scene.now) (around place.old at.now) at.now }
    requires all { AreAmongFirst place.old.mode at.now count }
    requires arguments { AreAmongArguments at.now count }
    requires widths { widths.old ≡ ground.now.scene.now.program.now.datas }
    ensures first { IfOk result (FindsFirst (IsBlockBelow (origins_of ground.now.scene.now) (around place.old at.now) at.now)) }
    ensures place { OnOk result (place.new ≡ place.old) }
    ensures same { widths.new ≡ widths.old }
{
    for number in 0..count {
        let found = in_part(alloc, ground, widths, at, number, place)?;
        if found.is_some() {
            return Ok(found);
        }
    }
    Ok(None)
}

// What blocks first at or below the part of this number.
#[cycle(walk)]
fn in_part(
    alloc: Global,
    ground: &Ground,
    widths: &mut Widths<'_>,
    at: &Term,
    number: usize,
    place: &mut Place,
) -> Result<Option<Trail>, NoMemory>
    requires ground { IsGround ground.now }
    requires inside { IsInside place.old at.now }
    requires typed { IsTypedAt (setting_in ground.now.scene.now) (around place.old at.now) at.now }
    requires number { IsAmong (arguments_of at.now) number }
    requires widths { widths.old ≡ ground.now.scene.now.program.now.datas }
    ensures first { IfOk result (FindsFirst (IsBlockAtPart (origins_of ground.now.scene.now) (around place.old at.now) at.now (path_to at.now number))) }
    ensures place { OnOk result (place.new ≡ place.old) }
    ensures same { widths.new ≡ widths.old }
{
    let path = path_to(at.args.len(), number)?;
    let Some(part) = part_at(alloc, ground, at, number, place)? else {
        return Ok(None);
    };
    let found = first_at(alloc, ground, widths, part, place)?;
    behind(found, path)
}

// What blocks first at or below a part.
#[cycle(walk)]
fn first_at(
    alloc: Global,
    ground: &Ground,
    widths: &mut Widths<'_>,
    part: Part,
    place: &mut Place,
) -> Result<Option<Trail>, NoMemory>
    requires ground { IsGround ground.now }
    requires typed { IsTypedAt (setting_in ground.now.scene.now) (spot_in (reverse place.old.vars) part) part.term.now }
    requires widths { widths.old ≡ ground.now.scene.now.program.now.datas }
    ensures first { IfOk result (FindsFirst (IsActiveBlock (origins_of ground.now.scene.now) (spot_in (reverse place.old.vars) part.entry) part.entry.term.now)) }
    ensures place { OnOk result (place.new ≡ place.old) }
    ensures same { widths.new ≡ widths.old }
{
    let Part {
        term,
        mode,
        gives,
        more,
    } = part;
    let outside = place.vars.len();
    let outer_mode = mem::replace(&mut place.mode, mode);
    let outer_result = mem::replace(&mut place.result, gives);
    enter(place, more)?;
    let found = first_from(alloc, ground, widths, term, place)?;
    leave(place, outside);
    place.mode = outer_mode;
    place.result = outer_result;
    Ok(found)
}
