//! Calls that become made definitions.
ghost use Rattle.std.specs.Prelude.{◌≡◌, ◌↔◌, ℕ, List, [], reverse, option_map, IfOk, IsTrue, MatchOption};
ghost use Rattle.chw_types.specs.References.{HasNoCycle};
ghost use Rattle.chw_types.specs.TypeTree.{TypeTree, fun};
ghost use Rattle.chw_terms.specs.declared.term.Arg.{Arg};
ghost use Rattle.chw_terms.specs.declared.term.Arg.TheVariants.{OfTerm};
ghost use Rattle.chw_terms.specs.TermTree.{TermTree, lam};
ghost use Rattle.rewriting.specs.Calls.{IsCall};
ghost use Rattle.rewriting.specs.Named.{IsNamed};
ghost use Rattle.rewriting.specs.Operands.{NeedsName};
ghost use Rattle.rewriting.specs.Shapes.{IsVariable};
ghost use Rattle.chw_terms.specs.FreeVariables.{free_in};
ghost use Rattle.chw_typing.specs.HeadTypes.{from_each};
ghost use Rattle.chw_typing.specs.Scopes.{setting_in};
ghost use Rattle.chw_typing.specs.Finding.{Finds};
ghost use Rattle.rewriting.specs.Origins.{origins_of, setting_at, under_each};
ghost use Rattle.rewriting.specs.Spots.{spot_of};
ghost use Rattle.rewriting.specs.Runs.{sort_at};
ghost use Rattle.rule_parts.specs.Cores.{HasTypeAt};
ghost use Rattle.term_types.specs.Answers.{IsReady};
ghost use Rattle.term_frames.specs.Signatures.{IsSignature};
ghost use Rattle.call_types.specs.Arguments.{AllTyped};
ghost use Rattle.specialise.specs.Calls.{HasNamedType, AnswersTypes, IsPlain, NoneNeedsName};
ghost use Rattle.specialise.specs.Closed.{numbers};
ghost use Rattle.specialise.specs.Seeds.{AnswersCall};

use crate::closing::close;
use crate::numbers::Seed;
use call_types::type_at;
use chw_base::{NoMemory, VarIx};
use chw_terms::{Arg, Head, Mode, Place, Scene, Sort, Term};
use chw_types::Ty;
use chw_typing::found_laws::{found_is_type, one_found};
use chw_typing::laws::{one_type, types_are_term_types};
use rewriting::scene_laws::{names_of_modes, settings_of_scenes};
use rule_parts::named::is_named;
use std::alloc::Global;
use term_types::Signature;

// What a call gives, by the mode of its place.
fn sort_at(mode: Mode) -> Sort
    ensures { result ≡ sort_at mode }
{
    match mode {
        Mode::C => Sort::Circuit,
        Mode::V | Mode::HV | Mode::HC | Mode::K => Sort::Value,
    }
}

// A lambda around the term, and the type of functions from this type.
fn over_one(alloc: Global, ty: Ty, term: Term, gives: Ty) -> Result<(Term, Ty), NoMemory>
    ensures { IfOk result (λ r. (r.0 ≡ lam ty term) × (r.1 ≡ fun ty gives)) }
{
    let from = ty.copy(alloc)?;
    let done = Term::lam(alloc, from, term)?;
    let whole = Ty::fun(alloc, ty, gives)?;
    Ok((done, whole))
}

// The term under a lambda for each of these types, and the type of functions of these that give the type.
fn over_each(alloc: Global, types: Vec<Ty>, term: Term, gives: Ty) -> Result<(Term, Ty), NoMemory>
    ensures { IfOk result (λ r. (r.0 ≡ under_each types.items term) × (r.1 ≡ from_each types.items gives)) }
{
    let mut types = types;
    let mut done = term;
    let mut whole = gives;
    while let Some(ty) = types.pop() {
        let next = over_one(alloc, ty, done, whole)?;
        done = next.0;
        whole = next.1;
    }
    Ok((done, whole))
}

// Whether the term is a variable.
fn is_variable(term: &Term) -> bool
    ensures { IsTrue result ↔ IsVariable term.now }
{
    match &term.head {
        Head::Var(_) => term.args.is_empty(),
        _ => false,
    }
}

// Whether the term needs a name at the place: it is no variable, and its type is named there.
fn needs_name(
    alloc: Global,
    scene: &Scene,
    signature: &Signature,
    place: &Place,
    term: &Term,
) -> Result<bool, NoMemory>
    requires order { HasNoCycle scene.now.program.now.datas }
    requires ready { IsReady (setting_in scene.now) [] (reverse place.now.vars) }
    requires table { IsSignature scene.now.program.now signature.now }
    requires typed { HasTypeAt (origins_of scene.now) (spot_of place.now) term.now }
    ensures { IfOk result (λ yes. IsTrue yes ↔ NeedsName (origins_of scene.now) (spot_of place.now) term.now) }
{
    if is_variable(term) {
        return Ok(false);
    }
    let ty = type_at(alloc, scene, signature, place, term)?;
    settings_of_scenes();
    found_is_type();
    one_type();
    types_are_term_types();
    names_of_modes();
    is_named(alloc, scene.program.datas.as_slice(), place.mode, &ty)
}

fn argument_needs_name(
    alloc: Global,
    scene: &Scene,
    signature: &Signature,
    place: &Place,
    arg: &Arg,
) -> Result<bool, NoMemory>
    requires order { HasNoCycle scene.now.program.now.datas }
    requires ready { IsReady (setting_in scene.now) [] (reverse place.now.vars) }
    requires table { IsSignature scene.now.program.now signature.now }
    requires typed { (a : TermTree) → arg.now ≡ OfTerm a → HasTypeAt (origins_of scene.now) (spot_of place.now) a }
    ensures { IfOk result (λ yes. IsTrue yes ↔ (a : TermTree) × (arg.now ≡ OfTerm a) × NeedsName (origins_of scene.now) (spot_of place.now) a) }
{
    match arg {
        Arg::OfTerm(term) => needs_name(alloc, scene, signature, place, term),
        Arg::OfType(_) => Ok(false),
    }
}

// Whether no argument needs a name.
fn none_needs_name(
    alloc: Global,
    scene: &Scene,
    signature: &Signature,
    place: &Place,
    args: &[Arg],
) -> Result<bool, NoMemory>
    requires order { HasNoCycle scene.now.program.now.datas }
    requires ready { IsReady (setting_in scene.now) [] (reverse place.now.vars) }
    requires table { IsSignature scene.now.program.now signature.now }
    requires typed { AllTyped (origins_of scene.now) (spot_of place.now) args.now }
    ensures { IfOk result (λ yes. IsTrue yes ↔ NoneNeedsName (origins_of scene.now) (spot_of place.now) args.now) }
{
    for arg in args {
        if argument_needs_name(alloc, scene, signature, place, arg)? {
            return Ok(false);
        }
    }
    Ok(true)
}

// The type of a variable, where it is in scope and its type is named.
fn named_type(
    alloc: Global,
    scene: &Scene,
    place: &Place,
    at: VarIx,
) -> Result<Option<Ty>, NoMemory>
    requires { HasNoCycle scene.now.program.now.datas }
    ensures { IfOk result (λ r. MatchOption r ((t : TypeTree) → HasNamedType (origins_of scene.now) (spot_of place.now) at.number t → ⊥) (λ t. HasNamedType (origins_of scene.now) (spot_of place.now) at.number t)) }
{
    let Some(ty) = place.vars.from_end(at.number as usize) else {
        return Ok(None);
    };
    if is_named(alloc, scene.program.datas.as_slice(), place.mode, ty)? {
        Ok(Some(ty.copy(alloc)?))
    } else {
        Ok(None)
    }
}

// The types of variables, where all are named.
fn named_types(
    alloc: Global,
    scene: &Scene,
    place: &Place,
    free: &[VarIx],
) -> Result<Option<Vec<Ty>>, NoMemory>
    requires { HasNoCycle scene.now.program.now.datas }
    ensures { IfOk result (λ r. AnswersTypes (origins_of scene.now) (spot_of place.now) (numbers free.now) (option_map (λ ts. ts.items) r)) }
{
    let mut types = Vec::new(alloc);
    for at in free {
        let Some(ty) = named_type(alloc, scene, place, *at)? else {
            return Ok(None);
        };
        types.push(ty)?;
    }
    Ok(Some(types))
}

// The type that is found for a call, where it is named there.
fn named_result(
    alloc: Global,
    scene: &Scene,
    signature: &Signature,
    place: &Place,
    at: &Term,
) -> Result<Option<Ty>, NoMemory>
    requires order { HasNoCycle scene.now.program.now.datas }
    requires ready { IsReady (setting_in scene.now) [] (reverse place.now.vars) }
    requires table { IsSignature scene.now.program.now signature.now }
    requires typed { HasTypeAt (origins_of scene.now) (spot_of place.now) at.now }
    ensures { IfOk result (λ r. MatchOption r
        ((types : List TypeTree) (gives : TypeTree) → IsCall (origins_of scene.now) (spot_of place.now) at.now types gives → ⊥)
        (λ t. Finds (setting_at (origins_of scene.now)) [] (reverse place.now.vars) at.now t
        × IsNamed scene.now.program.now.datas place.now.mode t)) }
{
    one_found();
    let gives = type_at(alloc, scene, signature, place, at)?;
    if is_named(alloc, scene.program.datas.as_slice(), place.mode, &gives)? {
        Ok(Some(gives))
    } else {
        Ok(None)
    }
}

/// Whether the term is the name of a definition on arguments none of which needs a name.
pub(crate) fn is_plain(
    alloc: Global,
    scene: &Scene,
    signature: &Signature,
    place: &Place,
    at: &Term,
) -> Result<bool, NoMemory>
    requires order { HasNoCycle scene.now.program.now.datas }
    requires ready { IsReady (setting_in scene.now) [] (reverse place.now.vars) }
    requires table { IsSignature scene.now.program.now signature.now }
    requires typed { HasTypeAt (origins_of scene.now) (spot_of place.now) at.now }
    ensures { IfOk result (λ yes. IsTrue yes ↔ IsPlain (origins_of scene.now) (spot_of place.now) at.now) }
{
    match &at.head {
        Head::Global(_) => none_needs_name(alloc, scene, signature, place, &at.args),
        _ => Ok(false),
    }
}

// What a call that gives this type becomes a made definition of.
fn seed_of(
    alloc: Global,
    scene: &Scene,
    signature: &Signature,
    place: &Place,
    at: &Term,
    free: &[VarIx],
    gives: Ty,
) -> Result<Option<Seed>, NoMemory>
    requires order { HasNoCycle scene.now.program.now.datas }
    requires ready { IsReady (setting_in scene.now) [] (reverse place.now.vars) }
    requires table { IsSignature scene.now.program.now signature.now }
    requires free { numbers free.now ≡ free_in at.now }
    requires plain { IsPlain (origins_of scene.now) (spot_of place.now) at.now }
    requires found { Finds (setting_at (origins_of scene.now)) [] (reverse place.now.vars) at.now gives }
    requires named { IsNamed scene.now.program.now.datas place.now.mode gives }
    ensures { IfOk result (AnswersCall (origins_of scene.now) (spot_of place.now) at.now) }
{
    let Some(types) = named_types(alloc, scene, place, free)? else {
        return Ok(None);
    };
    let inner = close(alloc, scene, free, 0, at)?;
    let (origin, ty) = over_each(alloc, types, inner, gives)?;
    let sort = sort_at(place.mode);
    Ok(Some(Seed { origin, ty, sort }))
}

/// What a call on arguments none of which needs a name becomes a made definition of: the call under a lambda for each of its free
/// variables, with origins for made definitions. These are the free variables.
pub(crate) fn call_seed(
    alloc: Global,
    scene: &Scene,
    signature: &Signature,
    place: &Place,
    at: &Term,
    free: &[VarIx],
) -> Result<Option<Seed>, NoMemory>
    requires order { HasNoCycle scene.now.program.now.datas }
    requires ready { IsReady (setting_in scene.now) [] (reverse place.now.vars) }
    requires table { IsSignature scene.now.program.now signature.now }
    requires free { numbers free.now ≡ free_in at.now }
    requires typed { HasTypeAt (origins_of scene.now) (spot_of place.now) at.now }
    requires plain { IsPlain (origins_of scene.now) (spot_of place.now) at.now }
    ensures { IfOk result (AnswersCall (origins_of scene.now) (spot_of place.now) at.now) }
{
    let Some(gives) = named_result(alloc, scene, signature, place, at)? else {
        return Ok(None);
    };
    seed_of(alloc, scene, signature, place, at, free, gives)
}
