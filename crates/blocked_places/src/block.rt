//! What blocks a term at a place.
ghost use Rattle.std.specs.Prelude.{◌≡◌, [], reverse, IfOk};
ghost use Rattle.chw_types.specs.References.{HasNoCycle};
ghost use Rattle.chw_typing.specs.Scopes.{setting_in};
ghost use Rattle.rewriting.specs.Origins.{origins_of};
ghost use Rattle.rewriting.specs.Spots.{spot_of};
ghost use Rattle.term_types.specs.Answers.{IsReady};
ghost use Rattle.term_frames.specs.Signatures.{IsSignature};
ghost use Rattle.blocked_places.specs.Answers.{AnswersBlock};

use crate::cycles::cycle_at;
use crate::limits::limit_at;
use crate::payloads::payload_at;
use chw_base::NoMemory;
use chw_layout::NoLayout;
use chw_terms::{Place, Scene, Term};
use chw_types::Ty;
use std::alloc::Global;
use term_types::Signature;
use type_widths::Widths;

/// What blocks a place.
#[derive(Drop)]
pub enum Block {
    /// A cycle of a letrec's bindings, by their numbers: each refers to the next one, and the last to the first. No binding comes twice.
    Recursion { bindings: Vec<u32> },
    /// The payload of a register, a block RAM or a synchronizer, which isn't representable.
    Payload { ty: Ty },
    /// The first limit that is passed.
    Limit { what: NoLayout },
}

/// What blocks a term at an active place, of several the first by rank. Nothing comes exactly where nothing blocks it.
///
/// No data type leads back to itself and the scene is sound, as in every typed program. Terms have the types of the variables in scope at
/// the place. The signature is that of the scene's program, and the widths are over its data types.
/// Where a number would pass 32 bits, the answer is want of memory.
pub fn block_at(
    alloc: Global,
    scene: &Scene,
    signature: &Signature,
    widths: &mut Widths<'_>,
    place: &Place,
    at: &Term,
) -> Result<Option<Block>, NoMemory>
    requires order { HasNoCycle scene.now.program.now.datas }
    requires ready { IsReady (setting_in scene.now) [] (reverse place.now.vars) }
    requires table { IsSignature scene.now.program.now signature.now }
    requires widths { widths.old ≡ scene.now.program.now.datas }
    ensures first { IfOk result (AnswersBlock (origins_of scene.now) (spot_of place.now) at.now) }
    ensures same { widths.new ≡ widths.old }
{
    let datas = scene.program.datas.as_slice();
    if let Some(bindings) = cycle_at(alloc, datas, place.mode, at)? {
        return Ok(Some(Block::Recursion { bindings }));
    }
    if let Some(ty) = payload_at(alloc, datas, at)? {
        return Ok(Some(Block::Payload { ty }));
    }
    match limit_at(alloc, scene, signature, widths, place, at)? {
        Some(what) => Ok(Some(Block::Limit { what })),
        None => Ok(None),
    }
}
