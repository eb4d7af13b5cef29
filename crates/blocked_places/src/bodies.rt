//! The walk over the body of a made definition: its leading lambdas, and then the places below them.
ghost use Rattle.std.specs.Prelude.{◌≡◌, ℕ, [], reverse, true, IfOk, Some, slice_get};
ghost use Rattle.chw_typing.specs.Scopes.{setting_in};
ghost use Rattle.rewriting.specs.Named.{mode_of};
ghost use Rattle.rewriting.specs.Origins.{made_of, origins_of};
ghost use Rattle.rewriting.specs.Typed.{IsTypedScene};
ghost use Rattle.term_frames.specs.Signatures.{IsSignature};
ghost use Rattle.active_parts.specs.Grounds.{IsGround};
ghost use Rattle.blocked_places.specs.Walks.{AnswersBody, FindsFirst, InBody, IsPartOf, LeadsToTyped};

use crate::block::Block;
use crate::trail::{Trail, behind_child};
use crate::walk::first_from;
use crate::widths::passed;
use active_parts::{Ground, enter, mode_of};
use chw_base::NoMemory;
use chw_terms::{GapBuffer, Head, Made, Place, Scene, Term};
use chw_types::{Ty, TyNode};
use chw_typing::named_laws::data_types_in_order;
use rewriting::place_laws::place_of_scene_is_typed;
use rewriting::scene_laws::settings_of_scenes;
use std::alloc::Global;
use term_types::Signature;
use type_widths::Widths;

/// A blocked place of a body: its path, and what blocks it.
#[derive(Drop)]
pub struct BlockedPart {
    pub path: Vec<u32>,
    pub block: Block,
}

// What blocks first at the leading lambdas of a term or below them, or at those that are left of them. Afterwards their variables are in
// scope.
fn in_lambdas(
    alloc: Global,
    ground: &Ground,
    widths: &mut Widths<'_>,
    at: &Term,
    ty: &Ty,
    place: &mut Place,
) -> Result<Option<Trail>, NoMemory>
    requires ground { IsGround ground.now }
    requires result { place.old.result ≡ true }
    requires typed { LeadsToTyped (setting_in ground.now.scene.now) place.old.mode (reverse place.old.vars) at.now ty.now }
    requires widths { widths.old ≡ ground.now.scene.now.program.now.datas }
    ensures first { IfOk result (FindsFirst (InBody (origins_of ground.now.scene.now) place.old.mode (reverse place.old.vars) at.now ty.now)) }
    ensures same { widths.new ≡ widths.old }
{
    let TyNode::Fun(_, to) = &ty.node else {
        return first_from(alloc, ground, widths, at, place);
    };
    let Head::Lam(of, body) = &at.head else {
        return Ok(None);
    };
    if let Some(what) = passed(alloc, widths, of)? {
        return Ok(Some(Trail {
            back: Vec::new(alloc),
            block: Block::Limit { what },
        }));
    }
    enter(place, vec![in alloc; of.copy(alloc)?]?)?;
    let found = in_lambdas(alloc, ground, widths, body, to, place)?;
    behind_child(found, 0)
}

// The part with its path, the first number first.
fn part_of(found: Option<Trail>) -> Option<BlockedPart>
    ensures { IsPartOf found result }
{
    match found {
        Some(trail) => {
            let Trail {
                back: mut path,
                block,
            } = trail;
            path.reverse();
            Some(BlockedPart { path, block })
        }
        None => None,
    }
}

// What blocks first at the leading lambdas of a made definition's body or below them.
fn in_made(
    alloc: Global,
    ground: &Ground,
    widths: &mut Widths<'_>,
    it: &Made,
) -> Result<Option<Trail>, NoMemory>
    requires ground { IsGround ground.now }
    requires typed { LeadsToTyped (setting_in ground.now.scene.now) (mode_of it.now.sort) [] it.now.body it.now.ty }
    requires widths { widths.old ≡ ground.now.scene.now.program.now.datas }
    ensures first { IfOk result (FindsFirst (InBody (origins_of ground.now.scene.now) (mode_of it.now.sort) [] it.now.body it.now.ty)) }
    ensures same { widths.new ≡ widths.old }
{
    let mut place = Place {
        mode: mode_of(it.sort),
        result: true,
        vars: GapBuffer::of(alloc, Vec::new(alloc)),
    };
    in_lambdas(alloc, ground, widths, &it.body, &it.ty, &mut place)
}

// The first blocked place of a made definition of a scene.
fn in_scene(
    alloc: Global,
    ground: &Ground,
    widths: &mut Widths<'_>,
    it: &Made,
) -> Result<Option<BlockedPart>, NoMemory>
    requires ground { IsGround ground.now }
    requires typed { IsTypedScene ground.now.scene.now }
    requires made { (m : ℕ) × (slice_get ground.now.scene.now.made.now m ≡ Some it.now) }
    requires widths { widths.old ≡ ground.now.scene.now.program.now.datas }
    ensures first { IfOk result (AnswersBody (origins_of ground.now.scene.now) (made_of it.now) it.now.body) }
    ensures same { widths.new ≡ widths.old }
{
    place_of_scene_is_typed();
    let found = in_made(alloc, ground, widths, it)?;
    Ok(part_of(found))
}

/// The first blocked place of the body of a made definition, by path and then by what blocks. Nothing comes exactly where nothing blocks
/// it.
///
/// The scene is typed, the made definition is one of it, the signature is that of its program, and
/// the widths are over its data types.
/// Where a number would pass 32 bits, the answer is want of memory.
pub fn first_blocked(
    alloc: Global,
    scene: &Scene,
    signature: &Signature,
    widths: &mut Widths<'_>,
    it: &Made,
) -> Result<Option<BlockedPart>, NoMemory>
    requires typed { IsTypedScene scene.now }
    requires table { IsSignature scene.now.program.now signature.now }
    requires made { (m : ℕ) × (slice_get scene.now.made.now m ≡ Some it.now) }
    requires widths { widths.old ≡ scene.now.program.now.datas }
    ensures first { IfOk result (AnswersBody (origins_of scene.now) (made_of it.now) it.now.body) }
    ensures same { widths.new ≡ widths.old }
{
    settings_of_scenes();
    data_types_in_order();
    let ground = Ground { scene, signature };
    in_scene(alloc, &ground, widths, it)
}
