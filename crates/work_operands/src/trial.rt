//! The rule that gives names to operands, tried on a term at a place.
ghost use Rattle.std.specs.Prelude.{[], reverse, IfOk};
ghost use Rattle.chw_types.specs.References.{HasNoCycle};
ghost use Rattle.chw_terms.specs.declared.rule.Rule.TheVariants.{Anf};
ghost use Rattle.chw_terms.specs.TermTree.{con, prim};
ghost use Rattle.chw_terms.specs.TermView.{tree_of, applied};
ghost use Rattle.chw_typing.specs.Scopes.{setting_in};
ghost use Rattle.rewriting.specs.Origins.{origins_of};
ghost use Rattle.rewriting.specs.Spots.{spot_of};
ghost use Rattle.rule_parts.specs.Cores.{HasTypeAt};
ghost use Rattle.term_types.specs.Answers.{IsReady};
ghost use Rattle.term_frames.specs.Signatures.{IsSignature};
ghost use Rattle.work_operands.specs.Firsts.{AnswersOperand, AnswersWhole, IsName};

use crate::arguments::name_argument;
use crate::counts::{asked_for_by, asked_for_of};
use crate::operands::{Operands, has_lets};
use crate::parts::{name_element, name_scrutinee};
use crate::results::name_result;
use chw_base::{ConId, NoMemory};
use chw_prims::Prim;
use chw_terms::{Arg, Head, Place, Scene, Term};
use rule_parts::copies::with_rest;
use std::alloc::Global;
use term_types::Signature;

// The first operand of a primitive on arguments gets its name.
fn name_of_prim(
    alloc: Global,
    scene: &Scene,
    signature: &Signature,
    place: &Place,
    which: Prim,
    args: &[Arg],
) -> Result<Option<Term>, NoMemory>
    requires order { HasNoCycle scene.now.program.now.datas }
    requires ready { IsReady (setting_in scene.now) [] (reverse place.now.vars) }
    requires table { IsSignature scene.now.program.now signature.now }
    requires typed { HasTypeAt (origins_of scene.now) (spot_of place.now) (applied (prim which) args.now) }
    ensures { IfOk result (AnswersOperand (origins_of scene.now) (spot_of place.now) (applied (prim which) args.now)) }
{
    let among = Operands::OfPrim(which);
    let of = Term::prim_of(alloc, which);
    let count = asked_for_by(which);
    name_argument(alloc, scene, signature, place, among, of, args, count)
}

// The first field of a constructor on arguments gets its name. Not in heads.
fn name_of_con(
    alloc: Global,
    scene: &Scene,
    signature: &Signature,
    place: &Place,
    which: ConId,
    args: &[Arg],
) -> Result<Option<Term>, NoMemory>
    requires order { HasNoCycle scene.now.program.now.datas }
    requires ready { IsReady (setting_in scene.now) [] (reverse place.now.vars) }
    requires table { IsSignature scene.now.program.now signature.now }
    requires typed { HasTypeAt (origins_of scene.now) (spot_of place.now) (applied (con which.number) args.now) }
    ensures { IfOk result (AnswersOperand (origins_of scene.now) (spot_of place.now) (applied (con which.number) args.now)) }
{
    if !has_lets(place.mode) {
        return Ok(None);
    }
    let Some(it) = signature.constructors.at(which) else {
        return Ok(None);
    };
    let of = Term::con(alloc, which);
    let count = asked_for_of(&it);
    name_argument(
        alloc,
        scene,
        signature,
        place,
        Operands::Each,
        of,
        args,
        count,
    )
}

// The first argument of a call, of a definition or of a made one, gets its name. Not in heads.
fn name_in_call(
    alloc: Global,
    scene: &Scene,
    signature: &Signature,
    place: &Place,
    of: Term,
    args: &[Arg],
) -> Result<Option<Term>, NoMemory>
    requires order { HasNoCycle scene.now.program.now.datas }
    requires ready { IsReady (setting_in scene.now) [] (reverse place.now.vars) }
    requires table { IsSignature scene.now.program.now signature.now }
    requires typed { HasTypeAt (origins_of scene.now) (spot_of place.now) (applied of args.now) }
    requires call { IsName of }
    ensures { IfOk result (AnswersOperand (origins_of scene.now) (spot_of place.now) (applied of args.now)) }
{
    if !has_lets(place.mode) {
        return Ok(None);
    }
    let count = args.len();
    name_argument(
        alloc,
        scene,
        signature,
        place,
        Operands::Each,
        of,
        args,
        count,
    )
}

// The first operand of a term gets its name, if one needs it.
fn name_operand(
    alloc: Global,
    scene: &Scene,
    signature: &Signature,
    at: &Term,
    place: &Place,
) -> Result<Option<Term>, NoMemory>
    requires order { HasNoCycle scene.now.program.now.datas }
    requires ready { IsReady (setting_in scene.now) [] (reverse place.now.vars) }
    requires table { IsSignature scene.now.program.now signature.now }
    requires typed { HasTypeAt (origins_of scene.now) (spot_of place.now) at.now }
    ensures { IfOk result (AnswersOperand (origins_of scene.now) (spot_of place.now) at.now) }
{
    let args = at.args.as_slice();
    match &at.head {
        Head::PrimOf(which) => name_of_prim(alloc, scene, signature, place, *which, args),
        Head::Con(which) => name_of_con(alloc, scene, signature, place, *which, args),
        Head::Global(of) => {
            name_in_call(
                alloc,
                scene,
                signature,
                place,
                Term::global(alloc, *of),
                args,
            )
        }
        Head::Made(of) => {
            name_in_call(alloc, scene, signature, place, Term::made(alloc, *of), args)
        }
        Head::Case(on, alts) => {
            let made = name_scrutinee(alloc, scene, signature, place, on, alts)?;
            with_rest(alloc, made, args)
        }
        Head::VecLit(ty, elements) => {
            let made = name_element(alloc, scene, signature, place, ty, elements)?;
            with_rest(alloc, made, args)
        }
        Head::Var(_) | Head::Lam(_, _) | Head::TyLam(_, _) | Head::LetRec(_, _) | Head::Lit(_, _) =>
            { Ok(None) }
    }
}

/// What the rule on operands makes of a term at a place: the first operand that needs a name gets it, and where none does, what a result
/// place gives. Nothing comes exactly where the rule makes nothing of the term.
///
/// Operands are the words of a primitive, its vector and its index, or its signals, and a scrutinee; and where letrecs may stand the fields
/// of a constructor, the elements of a vector, and the arguments of a call. An operand needs a name if it is no variable, and its type is
/// named in the place's mode.
///
/// No data type leads back to itself and the scene is sound, as in every typed program, and terms have the types of the variables in
/// scope at the place. The term has a type there, so the types of its operands are found by their heads where these are calls. The
/// signature is that of the scene's program, which is made once for many terms.
/// Where a number would pass 32 bits, the answer is want of memory.
pub fn try_operands(
    alloc: Global,
    scene: &Scene,
    signature: &Signature,
    at: &Term,
    place: &Place,
) -> Result<Option<Term>, NoMemory>
    requires order { HasNoCycle scene.now.program.now.datas }
    requires ready { IsReady (setting_in scene.now) [] (reverse place.now.vars) }
    requires table { IsSignature scene.now.program.now signature.now }
    requires typed { HasTypeAt (origins_of scene.now) (spot_of place.now) at.now }
    ensures { IfOk result (AnswersWhole (origins_of scene.now) (spot_of place.now) Anf at.now) }
{
    if let Some(made) = name_operand(alloc, scene, signature, at, place)? {
        return Ok(Some(made));
    }
    name_result(alloc, scene, signature, at, place)
}
