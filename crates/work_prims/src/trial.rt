//! The rules on primitives, tried on a term at a place.
ghost use Rattle.std.specs.Prelude.{[], reverse, IfOk};
ghost use Rattle.chw_types.specs.References.{HasNoCycle};
ghost use Rattle.chw_terms.specs.TermTree.{prim};
ghost use Rattle.chw_terms.specs.TermView.{applied};
ghost use Rattle.chw_typing.specs.Scopes.{setting_in};
ghost use Rattle.term_types.specs.Answers.{IsReady};
ghost use Rattle.term_frames.specs.Signatures.{IsSignature};
ghost use Rattle.rewriting.specs.Origins.{origins_of};
ghost use Rattle.rewriting.specs.Spots.{spot_of};
ghost use Rattle.rule_parts.specs.Cores.{Answers, AnswersCore};
ghost use Rattle.work_prims.specs.Rules.{IsOfPrimitives};

use crate::elements::element;
use crate::given::asked;
use crate::results::delta;
use crate::unrolled::unrolled;
use chw_base::NoMemory;
use chw_prims::{Prim, Row};
use chw_terms::{Arg, Head, Place, Rule, Scene, Term};
use rule_parts::copies::with_rest;
use std::alloc::Global;
use term_types::Signature;

// What a rule makes of a primitive on these arguments alone.
fn on_args(
    alloc: Global,
    rule: Rule,
    scene: &Scene,
    signature: &Signature,
    place: &Place,
    p: Prim,
    args: &[Arg],
) -> Result<Option<Term>, NoMemory>
    requires rule { IsOfPrimitives rule }
    requires ready { IsReady (setting_in scene.now) [] (reverse place.now.vars) }
    requires table { IsSignature scene.now.program.now signature.now }
    requires order { HasNoCycle scene.now.program.now.datas }
    ensures { IfOk result (AnswersCore (origins_of scene.now) (spot_of place.now) rule (applied (prim p) args.now)) }
{
    match rule {
        Rule::Unroll => unrolled(alloc, scene, signature, place, p, args),
        Rule::Elem => element(alloc, place, p, args),
        Rule::Delta => delta(alloc, place, p, args),
        _ => unreachable!(),
    }
}

/// What a rule on primitives makes of a term at a place: of a primitive on as many arguments as it asks for, and the other arguments
/// stay behind. Nothing comes exactly where the rule makes nothing of it.
///
/// The scene is sound and its data types have no cycle, as in every typed program, and terms have the types of the variables in scope
/// at the place. The signature is that of the scene's program, which is made once for many terms.
/// Where a number would pass 32 bits, the answer is want of memory.
pub fn try_prims(
    alloc: Global,
    rule: Rule,
    scene: &Scene,
    signature: &Signature,
    at: &Term,
    place: &Place,
) -> Result<Option<Term>, NoMemory>
    requires rule { IsOfPrimitives rule }
    requires ready { IsReady (setting_in scene.now) [] (reverse place.now.vars) }
    requires table { IsSignature scene.now.program.now signature.now }
    requires order { HasNoCycle scene.now.program.now.datas }
    ensures { IfOk result (Answers (origins_of scene.now) (spot_of place.now) rule at.now) }
{
    let Head::PrimOf(p) = &at.head else {
        return Ok(None);
    };
    let count = asked(Row::of(*p));
    if at.args.len() < count {
        return Ok(None);
    }
    let (args, rest) = at.args.split_at(count);
    let made = on_args(alloc, rule, scene, signature, place, *p, args)?;
    with_rest(alloc, made, rest)
}
