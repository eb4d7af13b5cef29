//! Which terms need names, and the first of some.
ghost use Rattle.std.specs.Prelude.{◌≡◌, ◌↔◌, [], reverse, length, IfOk, IsTrue, MatchOption};
ghost use Rattle.chw_types.specs.References.{HasNoCycle};
ghost use Rattle.chw_terms.specs.declared.term.Arg.TheVariants.{OfTerm};
ghost use Rattle.chw_terms.specs.TermTree.{TermTree};
ghost use Rattle.chw_typing.specs.Scopes.{setting_in};
ghost use Rattle.rewriting.specs.Origins.{origins_of};
ghost use Rattle.rewriting.specs.Spots.{spot_of};
ghost use Rattle.rewriting.specs.Shapes.{IsVariable, IsLet};
ghost use Rattle.rule_parts.specs.Cores.{HasTypeAt};
ghost use Rattle.term_types.specs.Answers.{IsReady};
ghost use Rattle.term_frames.specs.Signatures.{IsSignature};
ghost use Rattle.call_types.specs.Arguments.{AllTyped};
ghost use Rattle.work_operands.specs.Firsts.{AllElementsTyped, AnswersName, AnswersFirstArg, AnswersFirstElement, AnswersArg};

use crate::operands::{Operands, is_among};
use call_types::type_at;
use chw_base::NoMemory;
use chw_terms::{Arg, Head, Place, Scene, Term};
use chw_types::Ty;
use chw_typing::found_laws::found_is_type;
use chw_typing::laws::{one_type, types_are_term_types};
use rewriting::scene_laws::{names_of_modes, settings_of_scenes};
use rule_parts::named::is_named;
use std::alloc::Global;
use term_types::Signature;

/// A part that gets a name: its number, its type, and the part.
#[derive(Drop)]
pub(crate) struct Named<'t> {
    pub(crate) number: usize,
    pub(crate) ty: Ty,
    pub(crate) part: &'t Term,
}

/// Whether a term is a variable.
pub(crate) fn is_variable(term: &Term) -> bool
    ensures { IsTrue result ↔ IsVariable term.now }
{
    match &term.head {
        Head::Var(_) => term.args.is_empty(),
        _ => false,
    }
}

/// Whether a term is a letrec.
pub(crate) fn is_let(term: &Term) -> bool
    ensures { IsTrue result ↔ IsLet term.now }
{
    match &term.head {
        Head::LetRec(_, _) => term.args.is_empty(),
        _ => false,
    }
}

/// The type of the name that a term needs at a place, where it has a type, if it needs one: it is no variable, and its type is named there.
pub(crate) fn name_needed(
    alloc: Global,
    scene: &Scene,
    signature: &Signature,
    place: &Place,
    term: &Term,
) -> Result<Option<Ty>, NoMemory>
    requires order { HasNoCycle scene.now.program.now.datas }
    requires ready { IsReady (setting_in scene.now) [] (reverse place.now.vars) }
    requires table { IsSignature scene.now.program.now signature.now }
    requires typed { HasTypeAt (origins_of scene.now) (spot_of place.now) term.now }
    ensures { IfOk result (AnswersName (origins_of scene.now) (spot_of place.now) term.now) }
{
    if is_variable(term) {
        return Ok(None);
    }
    let ty = type_at(alloc, scene, signature, place, term)?;
    settings_of_scenes();
    found_is_type();
    one_type();
    types_are_term_types();
    names_of_modes();
    if is_named(alloc, scene.program.datas.as_slice(), place.mode, &ty)? {
        return Ok(Some(ty));
    }
    Ok(None)
}

// The name that the argument of this number needs, if it is an operand and needs one. If it is a term, it has a type.
fn argument_named<'t>(
    alloc: Global,
    scene: &Scene,
    signature: &Signature,
    place: &Place,
    among: Operands,
    number: usize,
    arg: &'t Arg,
) -> Result<Option<Named<'t>>, NoMemory>
    requires order { HasNoCycle scene.now.program.now.datas }
    requires ready { IsReady (setting_in scene.now) [] (reverse place.now.vars) }
    requires table { IsSignature scene.now.program.now signature.now }
    requires typed { (x : TermTree) → arg.now ≡ OfTerm x → HasTypeAt (origins_of scene.now) (spot_of place.now) x }
    ensures { IfOk result (AnswersArg (origins_of scene.now) (spot_of place.now) among number arg.now) }
{
    let Arg::OfTerm(part) = arg else {
        return Ok(None);
    };
    if !is_among(among, number) {
        return Ok(None);
    }
    match name_needed(alloc, scene, signature, place, part)? {
        Some(ty) => Ok(Some(Named { number, ty, part })),
        None => Ok(None),
    }
}

/// The first argument that is an operand and needs a name.
pub(crate) fn first_argument<'t>(
    alloc: Global,
    scene: &Scene,
    signature: &Signature,
    place: &Place,
    among: Operands,
    args: &'t [Arg],
) -> Result<Option<Named<'t>>, NoMemory>
    requires order { HasNoCycle scene.now.program.now.datas }
    requires ready { IsReady (setting_in scene.now) [] (reverse place.now.vars) }
    requires table { IsSignature scene.now.program.now signature.now }
    requires typed { AllTyped (origins_of scene.now) (spot_of place.now) args.now }
    ensures { IfOk result (AnswersFirstArg (origins_of scene.now) (spot_of place.now) among args.now) }
{
    for (number, arg) in args.iter().enumerate() {
        let found = argument_named(alloc, scene, signature, place, among, number, arg)?;
        if let Some(named) = found {
            return Ok(Some(named));
        }
    }
    Ok(None)
}

/// The first element that needs a name.
pub(crate) fn first_element<'t>(
    alloc: Global,
    scene: &Scene,
    signature: &Signature,
    place: &Place,
    elements: &'t [Term],
) -> Result<Option<Named<'t>>, NoMemory>
    requires order { HasNoCycle scene.now.program.now.datas }
    requires ready { IsReady (setting_in scene.now) [] (reverse place.now.vars) }
    requires table { IsSignature scene.now.program.now signature.now }
    requires typed { AllElementsTyped (origins_of scene.now) (spot_of place.now) elements.now }
    ensures { IfOk result (AnswersFirstElement (origins_of scene.now) (spot_of place.now) elements.now) }
{
    for (number, part) in elements.iter().enumerate() {
        if let Some(ty) = name_needed(alloc, scene, signature, place, part)? {
            return Ok(Some(Named { number, ty, part }));
        }
    }
    Ok(None)
}
