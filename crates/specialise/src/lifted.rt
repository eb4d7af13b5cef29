//! Lifted functions that become made definitions.
ghost use Rattle.std.specs.Prelude.{◌≡◌, ◌↔◌, ◌<◌, ◌≤◌, suc, List, [], ◌∷◌, length, reverse, IfOk, IfSome, IfNone, IsTrue, MatchOption};
ghost use Rattle.chw_types.specs.References.{HasNoCycle};
ghost use Rattle.chw_types.specs.TypeTree.{TypeTree};
ghost use Rattle.chw_terms.specs.TermTree.{TermTree, made, app, ty_app};
ghost use Rattle.chw_typing.specs.Scopes.{setting_in};
ghost use Rattle.chw_typing.specs.Finding.{Finds};
ghost use Rattle.rewriting.specs.Origins.{origins_of, setting_at};
ghost use Rattle.chw_typing.specs.Given.{types_then};
ghost use Rattle.rewriting.specs.Spots.{spot_of};
ghost use Rattle.rewriting.specs.Shapes.{IsClosed, IsMade, IsOfCircuit, fmap_of, leading_lambdas};
ghost use Rattle.term_types.specs.Answers.{HasNoType, IsReady};
ghost use Rattle.term_frames.specs.Signatures.{IsSignature};
ghost use Rattle.specialise.specs.Seeds.{AnswersLambdas, IsOfValues};

use crate::parameters::parameter_count;
use chw_base::{MadeId, NoMemory};
use chw_prims::Prim;
use chw_terms::{Arg, Head, Mode, Place, Scene, Term};
use chw_types::{Data, Ty};
use chw_typing::found_laws::{found_is_type, one_found};
use free_variables::free_in;
use rewriting::scene_laws::settings_of_scenes;
use std::alloc::Global;
use term_types::{Signature, type_in_scope};

/// Whether circuits are built there, or looked at.
pub(crate) fn is_of_circuit(mode: Mode) -> bool
    ensures { IsTrue result ↔ IsOfCircuit mode }
{
    match mode {
        Mode::C | Mode::HC => true,
        Mode::V | Mode::HV | Mode::K => false,
    }
}

// Whether no variable occurs free.
fn is_closed(alloc: Global, term: &Term) -> Result<bool, NoMemory>
    ensures { IfOk result (λ is. IsTrue is ↔ IsClosed term.now) }
{
    Ok(free_in(alloc, term)?.is_empty())
}

// Whether the term is the bare name of a made definition.
fn is_made(term: &Term) -> bool
    ensures { IsTrue result ↔ IsMade term.now }
{
    match &term.head {
        Head::Made(_) => term.args.is_empty(),
        _ => false,
    }
}

// The body of a bare lambda.
fn under_lambda(term: &Term) -> Option<&Term>
    ensures some { IfSome result (λ b. leading_lambdas term.now ≡ suc (leading_lambdas b.now)) }
    ensures none { IfNone result (leading_lambdas term.now ≡ 0) }
{
    let Head::Lam(_, body) = &term.head else {
        return None;
    };
    if term.args.is_empty() {
        Some(body)
    } else {
        None
    }
}

// Whether so many lambdas lead.
fn has_lambdas(term: &Term, count: usize) -> bool
    ensures { IsTrue result ↔ (count ≤ leading_lambdas term.now) }
{
    let mut inner = term;
    for _lambda in 0..count {
        let Some(body) = under_lambda(inner) else {
            return false;
        };
        inner = body;
    }
    true
}

/// The parts of `fmap @d @a @b g s`.
#[derive(Clone, Copy)]
pub(crate) struct Lifted<'t> {
    pub(crate) dom: &'t Ty,
    pub(crate) from: &'t Ty,
    pub(crate) to: &'t Ty,
    pub(crate) function: &'t Term,
    pub(crate) signal: &'t Term,
}

/// Three types and two terms as arguments.
pub(crate) fn as_lifted<'t>(args: &'t [Arg]) -> Option<Lifted<'t>>
    ensures { MatchOption result ((d a b : TypeTree) (g s : TermTree) → args.now ≡ types_then (d ∷ a ∷ b ∷ []) (g ∷ s ∷ []) → ⊥) (λ l. args.now ≡ types_then (l.dom.now ∷ l.from.now ∷ l.to.now ∷ []) (l.function.now ∷ l.signal.now ∷ [])) }
{
    match args {
        [
            Arg::OfType(dom),
            Arg::OfType(from),
            Arg::OfType(to),
            Arg::OfTerm(function),
            Arg::OfTerm(signal),
        ] => Some(Lifted {
            dom,
            from,
            to,
            function,
            signal,
        }),
        _ => None,
    }
}

// The term on a copy of this type.
fn on_type(alloc: Global, term: Term, ty: &Ty) -> Result<Term, NoMemory>
    ensures { IfOk result (λ e. e ≡ ty_app term ty.now) }
{
    let ty = ty.copy(alloc)?;
    Term::ty_app(term, ty)
}

// The term on a copy of this one.
fn on_term(alloc: Global, term: Term, arg: &Term) -> Result<Term, NoMemory>
    ensures { IfOk result (λ e. e ≡ app term arg.now) }
{
    let arg = arg.copy(alloc)?;
    Term::app(term, arg)
}

/// `fmap` with a made definition as its function.
pub(crate) fn lifting(alloc: Global, at: Lifted<'_>, number: MadeId) -> Result<Term, NoMemory>
    ensures { IfOk result (λ e. e ≡ fmap_of at.entry.dom.now at.entry.from.now at.entry.to.now (made number.number) at.entry.signal.now) }
{
    let fmap = Term::prim_of(alloc, Prim::Fmap);
    let on_domain = on_type(alloc, fmap, at.dom)?;
    let on_one = on_type(alloc, on_domain, at.from)?;
    let on_types = on_type(alloc, on_one, at.to)?;
    let on_function = Term::app(on_types, Term::made(alloc, number))?;
    on_term(alloc, on_function, at.signal)
}

/// The type of the term at the place.
pub(crate) fn type_at(
    alloc: Global,
    scene: &Scene,
    signature: &Signature,
    place: &Place,
    term: &Term,
) -> Result<Option<Ty>, NoMemory>
    requires ready { IsReady (setting_in scene.now) [] (reverse place.now.vars) }
    requires table { IsSignature scene.now.program.now signature.now }
    ensures some { IfOk result (λ r. IfSome r (λ t. Finds (setting_at (origins_of scene.now)) [] (reverse place.now.vars) term.now t)) }
    ensures none { IfOk result (λ r. IfNone r (HasNoType (setting_at (origins_of scene.now)) [] (reverse place.now.vars) term.now)) }
{
    settings_of_scenes();
    type_in_scope(alloc, scene, signature, &place.vars, term)
}

// Whether the type is that of functions of values that give a value, and so many lambdas lead the function as there are parameters: one
// or more.
fn has_lambda_each(
    alloc: Global,
    datas: &[Data],
    ty: &Ty,
    function: &Term,
) -> Result<bool, NoMemory>
    requires { HasNoCycle datas.now }
    ensures { IfOk result (λ yes. IsTrue yes ↔ (ps : List TypeTree) × IsOfValues datas.now ty.now ps × (0 < length ps) × (length ps ≤ leading_lambdas function.now)) }
{
    let Some(count) = parameter_count(alloc, datas, ty)? else {
        return Ok(false);
    };
    if count == 0 {
        return Ok(false);
    }
    Ok(has_lambdas(function, count))
}

/// The type of a lifted function that becomes a made definition: closed, none itself, of values, with a lambda for each of its parameters.
pub(crate) fn lifted_type(
    alloc: Global,
    scene: &Scene,
    signature: &Signature,
    place: &Place,
    function: &Term,
) -> Result<Option<Ty>, NoMemory>
    requires order { HasNoCycle scene.now.program.now.datas }
    requires ready { IsReady (setting_in scene.now) [] (reverse place.now.vars) }
    requires table { IsSignature scene.now.program.now signature.now }
    ensures { IfOk result (AnswersLambdas (origins_of scene.now) (spot_of place.now) function.now) }
{
    if is_made(function) {
        return Ok(None);
    }
    if !is_closed(alloc, function)? {
        return Ok(None);
    }
    found_is_type();
    one_found();
    let Some(ty) = type_at(alloc, scene, signature, place, function)? else {
        return Ok(None);
    };
    if has_lambda_each(alloc, scene.program.datas.as_slice(), &ty, function)? {
        Ok(Some(ty))
    } else {
        Ok(None)
    }
}
