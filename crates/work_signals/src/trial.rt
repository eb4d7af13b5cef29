//! The rule on functions on signals, tried on a term at a place.
ghost use Rattle.std.specs.Prelude.{◌↔◌, [], reverse, IfOk, IsTrue};
ghost use Rattle.chw_types.specs.References.{HasNoCycle};
ghost use Rattle.chw_terms.specs.declared.rule.Rule.TheVariants.{ApPure};
ghost use Rattle.chw_terms.specs.TermView.{tree_of, applied};
ghost use Rattle.chw_typing.specs.Scopes.{setting_in};
ghost use Rattle.rewriting.specs.Origins.{origins_of};
ghost use Rattle.rewriting.specs.Spots.{spot_of};
ghost use Rattle.rewriting.specs.Shapes.{IsOfCircuit};
ghost use Rattle.term_types.specs.Answers.{IsReady};
ghost use Rattle.term_frames.specs.Signatures.{IsSignature};
ghost use Rattle.rule_parts.specs.Cores.{Answers};
ghost use Rattle.work_signals.specs.Joined.{AnswersJoin};

use crate::aps::join_ap;
use crate::fmaps::join_fmap;
use crate::views::{as_ap, as_fmap};
use chw_base::NoMemory;
use chw_terms::{Arg, Head, Mode, Place, Scene, Term};
use rule_parts::copies::with_rest;
use std::alloc::Global;
use term_types::Signature;

/// How many arguments `fmap` and `ap` have: a domain, two types, functions, and a signal.
const LIFTED_ARGUMENTS: usize = 5;

// Whether circuits stand in places of this mode.
fn is_of_circuit(mode: Mode) -> bool
    ensures { IsTrue result ↔ IsOfCircuit mode }
{
    match mode {
        Mode::C | Mode::HC => true,
        Mode::V | Mode::HV | Mode::K => false,
    }
}

// What becomes of a head on these arguments.
fn join(
    alloc: Global,
    scene: &Scene,
    signature: &Signature,
    place: &Place,
    head: &Head,
    args: &[Arg],
) -> Result<Option<Term>, NoMemory>
    requires order { HasNoCycle scene.now.program.now.datas }
    requires ready { IsReady (setting_in scene.now) [] (reverse place.now.vars) }
    requires table { IsSignature scene.now.program.now signature.now }
    ensures { IfOk result (AnswersJoin (origins_of scene.now) (spot_of place.now) (applied (tree_of head.now) args.now)) }
{
    if let Some(outer) = as_fmap(head, args) {
        return join_fmap(alloc, scene, signature, place, outer);
    }
    if let Some(outer) = as_ap(head, args) {
        return join_ap(alloc, scene, signature, place, outer);
    }
    Ok(None)
}

/// What the rule on functions on signals makes of a term at a place: of `fmap` and `ap` with their five arguments, and the other arguments
/// stay behind. Nothing comes exactly where the rule makes nothing of it.
///
/// No data type leads back to itself and the scene is sound, as in every typed program, and terms have the types of the variables in
/// scope at the place. The signature is that of the scene's program, which is made once for many terms.
/// Where a number would pass 32 bits, the answer is want of memory.
pub fn try_signals(
    alloc: Global,
    scene: &Scene,
    signature: &Signature,
    at: &Term,
    place: &Place,
) -> Result<Option<Term>, NoMemory>
    requires order { HasNoCycle scene.now.program.now.datas }
    requires ready { IsReady (setting_in scene.now) [] (reverse place.now.vars) }
    requires table { IsSignature scene.now.program.now signature.now }
    ensures { IfOk result (Answers (origins_of scene.now) (spot_of place.now) ApPure at.now) }
{
    if !is_of_circuit(place.mode) {
        return Ok(None);
    }
    if at.args.len() < LIFTED_ARGUMENTS {
        return Ok(None);
    }
    let (args, rest) = at.args.split_at(LIFTED_ARGUMENTS);
    let made = join(alloc, scene, signature, place, &at.head, args)?;
    with_rest(alloc, made, rest)
}
