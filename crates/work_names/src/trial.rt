//! The rules on names and on lifted functions, tried on a term at a place.
ghost use Rattle.std.specs.Prelude.{◌≡◌, ◌↔◌, [], reverse, IfOk, IsTrue};
ghost use Rattle.chw_types.specs.References.{HasNoCycle};
ghost use Rattle.chw_prims.specs.declared.prim.Primitive.TheVariants.{Fmap};
ghost use Rattle.chw_terms.specs.declared.rule.Rule.TheVariants.{Unfold, Eta};
ghost use Rattle.chw_terms.specs.TermTree.{prim};
ghost use Rattle.chw_terms.specs.TermView.{tree_of};
ghost use Rattle.chw_typing.specs.Scopes.{setting_in};
ghost use Rattle.rewriting.specs.Origins.{origins_of};
ghost use Rattle.rewriting.specs.Spots.{spot_of};
ghost use Rattle.rule_parts.specs.Cores.{Answers};
ghost use Rattle.term_types.specs.Answers.{IsReady};
ghost use Rattle.term_frames.specs.Signatures.{IsSignature};
ghost use Rattle.work_names.specs.Rules.{IsOfNames};

use crate::eta::eta;
use crate::unfold::unfold;
use chw_base::NoMemory;
use chw_prims::Prim;
use chw_terms::{Head, Place, Rule, Scene, Term};
use rule_parts::copies::with_rest;
use std::alloc::Global;
use term_types::Signature;

// How many arguments `fmap` names.
const FMAP_ARGS: usize = 5;

fn try_unfold(
    alloc: Global,
    scene: &Scene,
    at: &Term,
    place: &Place,
) -> Result<Option<Term>, NoMemory>
    ensures { IfOk result (Answers (origins_of scene.now) (spot_of place.now) Unfold at.now) }
{
    let made = unfold(alloc, scene, place, &at.head)?;
    with_rest(alloc, made, &at.args)
}

// Whether the head is `fmap`.
fn is_fmap(head: &Head) -> bool
    ensures { IsTrue result ↔ (tree_of head.now ≡ prim Fmap) }
{
    match head {
        Head::PrimOf(Prim::Fmap) => true,
        _ => false,
    }
}

fn try_eta(
    alloc: Global,
    scene: &Scene,
    signature: &Signature,
    at: &Term,
    place: &Place,
) -> Result<Option<Term>, NoMemory>
    requires order { HasNoCycle scene.now.program.now.datas }
    requires ready { IsReady (setting_in scene.now) [] (reverse place.now.vars) }
    requires table { IsSignature scene.now.program.now signature.now }
    ensures { IfOk result (Answers (origins_of scene.now) (spot_of place.now) Eta at.now) }
{
    if !is_fmap(&at.head) {
        return Ok(None);
    }
    if at.args.len() < FMAP_ARGS {
        return Ok(None);
    }
    let (own, rest) = at.args.split_at(FMAP_ARGS);
    let made = eta(alloc, scene, signature, place, own)?;
    with_rest(alloc, made, rest)
}

/// What the rule on names, or that on lifted functions, makes of a term at a place. A name becomes what it stands for, and `fmap` at its
/// five arguments gets a function with a lambda for each parameter; the other arguments stay behind. Nothing comes exactly where the rule
/// makes nothing of the term.
///
/// No data type leads back to itself and the scene is sound, as that of every typed program is, and terms have the types of the variables
/// in scope at the place. The signature is that of the scene's program, which is made once for many terms.
/// Where a number would pass 32 bits, the answer is want of memory.
pub fn try_names(
    alloc: Global,
    rule: Rule,
    scene: &Scene,
    signature: &Signature,
    at: &Term,
    place: &Place,
) -> Result<Option<Term>, NoMemory>
    requires rule { IsOfNames rule }
    requires order { HasNoCycle scene.now.program.now.datas }
    requires ready { IsReady (setting_in scene.now) [] (reverse place.now.vars) }
    requires table { IsSignature scene.now.program.now signature.now }
    ensures { IfOk result (Answers (origins_of scene.now) (spot_of place.now) rule at.now) }
{
    match rule {
        Rule::Unfold => try_unfold(alloc, scene, at, place),
        Rule::Eta => try_eta(alloc, scene, signature, at, place),
        _ => unreachable!(),
    }
}
