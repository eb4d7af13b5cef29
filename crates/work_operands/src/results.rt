//! Names for what result places give.
ghost use Rattle.std.specs.Prelude.{◌↔◌, ◌≡◌, true, [], reverse, IfOk, IsTrue};
ghost use Rattle.chw_terms.specs.declared.rule.Rule.TheVariants.{Anf};
ghost use Rattle.chw_typing.specs.Scopes.{setting_in};
ghost use Rattle.rewriting.specs.Origins.{origins_of};
ghost use Rattle.rewriting.specs.Spots.{spot_of, HasLets};
ghost use Rattle.rewriting.specs.Operands.{NoneNeedsName};
ghost use Rattle.rule_parts.specs.Cores.{HasTypeAt};
ghost use Rattle.term_types.specs.Answers.{IsReady};
ghost use Rattle.term_frames.specs.Signatures.{IsSignature};
ghost use Rattle.work_operands.specs.Firsts.{AnswersWhole};

use crate::arguments::new_name;
use crate::finding::{is_let, is_variable};
use crate::operands::has_lets;
use call_types::type_at;
use chw_base::NoMemory;
use chw_terms::{Place, Scene, Term};
use rule_parts::copies::let_one;
use std::alloc::Global;
use term_types::Signature;

// Whether what is given at a place gets a name.
fn is_result(place: &Place) -> bool
    ensures { IsTrue result ↔ (HasLets place.now.mode × (place.now.result ≡ true)) }
{
    place.result && has_lets(place.mode)
}

/// `e` ==> `letrec { x = e } in x` at a result place, where e is no variable and no letrec, and no operand of it needs a name.
pub(crate) fn name_result(
    alloc: Global,
    scene: &Scene,
    signature: &Signature,
    at: &Term,
    place: &Place,
) -> Result<Option<Term>, NoMemory>
    requires ready { IsReady (setting_in scene.now) [] (reverse place.now.vars) }
    requires table { IsSignature scene.now.program.now signature.now }
    requires typed { HasTypeAt (origins_of scene.now) (spot_of place.now) at.now }
    requires none { NoneNeedsName (origins_of scene.now) (spot_of place.now) at.now }
    ensures { IfOk result (AnswersWhole (origins_of scene.now) (spot_of place.now) Anf at.now) }
{
    if !is_result(place) {
        return Ok(None);
    }
    if is_variable(at) {
        return Ok(None);
    }
    if is_let(at) {
        return Ok(None);
    }
    let ty = type_at(alloc, scene, signature, place, at)?;
    Ok(Some(let_one(alloc, ty, at, new_name(alloc))?))
}
