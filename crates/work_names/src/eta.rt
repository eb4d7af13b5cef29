//! What the rule on lifted functions makes of `fmap`.
ghost use Rattle.std.specs.Prelude.{◌≡◌, ◌↔◌, ◌<◌, suc, [], ◌∷◌, length, reverse, option_map, IfOk, IfSome, IfNone, IsTrue, MatchOption};
ghost use Rattle.chw_types.specs.References.{HasNoCycle};
ghost use Rattle.chw_types.specs.TypeTree.{TypeTree};
ghost use Rattle.chw_prims.specs.declared.prim.Primitive.TheVariants.{Fmap};
ghost use Rattle.chw_terms.specs.declared.rule.Rule.TheVariants.{Eta};
ghost use Rattle.chw_terms.specs.TermTree.{TermTree, prim};
ghost use Rattle.chw_terms.specs.TermView.{applied};
ghost use Rattle.chw_typing.specs.Given.{types_then};
ghost use Rattle.chw_typing.specs.Scopes.{setting_in};
ghost use Rattle.chw_typing.specs.Finding.{Finds};
ghost use Rattle.rewriting.specs.Origins.{origins_of, setting_at, on_variables, under_each, eta_expanded};
ghost use Rattle.rewriting.specs.Spots.{spot_of};
ghost use Rattle.rewriting.specs.Shapes.{IsClosed, IsMade, IsOfCircuit, fmap_of, leading_lambdas};
ghost use Rattle.rule_parts.specs.Cores.{AnswersCore};
ghost use Rattle.term_types.specs.Answers.{HasNoType, IsReady};
ghost use Rattle.term_frames.specs.Signatures.{IsSignature};
ghost use Rattle.work_names.specs.Functions.{AnswersLambdas};

use crate::parameters::parameters;
use chw_base::{NoMemory, VarIx, narrow};
use chw_prims::Prim;
use chw_terms::{Arg, Head, Mode, Place, Scene, Term, shift};
use chw_types::Ty;
use chw_typing::found_laws::{found_is_type, one_found};
use free_variables::free_in;
use rewriting::scene_laws::settings_of_scenes;
use std::alloc::Global;
use term_types::{Signature, type_in_scope};

// Whether circuits are built there, or looked at.
fn is_of_circuit(mode: Mode) -> bool
    ensures { IsTrue result ↔ IsOfCircuit mode }
{
    match mode {
        Mode::C | Mode::HC => true,
        Mode::V | Mode::HV | Mode::K => false,
    }
}

// Whether no variable occurs free.
fn is_closed(alloc: Global, term: &Term) -> Result<bool, NoMemory>
    ensures { IfOk result (λ is. IsTrue is ↔ IsClosed term.now) }
{
    Ok(free_in(alloc, term)?.is_empty())
}

// Whether the term is the bare name of a made definition.
fn is_made(term: &Term) -> bool
    ensures { IsTrue result ↔ IsMade term.now }
{
    match &term.head {
        Head::Made(_) => term.args.is_empty(),
        _ => false,
    }
}

// The body of a bare lambda.
fn under_lambda(term: &Term) -> Option<&Term>
    ensures some { IfSome result (λ b. leading_lambdas term.now ≡ suc (leading_lambdas b.now)) }
    ensures none { IfNone result (leading_lambdas term.now ≡ 0) }
{
    let Head::Lam(_, body) = &term.head else {
        return None;
    };
    if term.args.is_empty() {
        Some(body)
    } else {
        None
    }
}

// Whether fewer lambdas lead than there are parameters.
fn lacks_lambdas(term: &Term, params: &[Ty]) -> bool
    ensures { IsTrue result ↔ (leading_lambdas term.now < length params.now) }
{
    let mut inner = term;
    for _param in params {
        let Some(body) = under_lambda(inner) else {
            return true;
        };
        inner = body;
    }
    false
}

// The term on so many variables, the last of which is the innermost, 0.
fn on_variables(alloc: Global, term: Term, count: u32) -> Result<Term, NoMemory>
    ensures { IfOk result (λ e. e ≡ on_variables term 0 count) }
{
    let mut done = term;
    for n in 0..count {
        let at = VarIx {
            number: count - 1 - n,
        };
        done = Term::app(done, Term::var(alloc, at))?;
    }
    Ok(done)
}

// The term under a lambda for each of these types.
fn under_each(alloc: Global, params: Vec<Ty>, term: Term) -> Result<Term, NoMemory>
    ensures { IfOk result (λ e. e ≡ under_each params.items term) }
{
    let mut params = params;
    let mut done = term;
    while let Some(ty) = params.pop() {
        done = Term::lam(alloc, ty, done)?;
    }
    Ok(done)
}

// g ==> \x1 .. \xn . g x1 .. xn
fn expanded(alloc: Global, params: Vec<Ty>, term: &Term) -> Result<Term, NoMemory>
    ensures { IfOk result (λ e. e ≡ eta_expanded params.items term.now) }
{
    let count = narrow(params.len())?;
    let inner = shift(alloc, term, VarIx { number: 0 }, count)?;
    let body = on_variables(alloc, inner, count)?;
    under_each(alloc, params, body)
}

// The parts of `fmap @d @a @b g s`.
#[derive(Clone, Copy)]
pub(crate) struct Lifted<'t> {
    pub(crate) dom: &'t Ty,
    pub(crate) from: &'t Ty,
    pub(crate) to: &'t Ty,
    pub(crate) function: &'t Term,
    pub(crate) signal: &'t Term,
}

// Three types and two terms as arguments.
fn as_lifted<'t>(args: &'t [Arg]) -> Option<Lifted<'t>>
    ensures { MatchOption result ((d a b : TypeTree) (g s : TermTree) → args.now ≡ types_then (d ∷ a ∷ b ∷ []) (g ∷ s ∷ []) → ⊥) (λ l. args.now ≡ types_then (l.dom.now ∷ l.from.now ∷ l.to.now ∷ []) (l.function.now ∷ l.signal.now ∷ [])) }
{
    match args {
        [
            Arg::OfType(dom),
            Arg::OfType(from),
            Arg::OfType(to),
            Arg::OfTerm(function),
            Arg::OfTerm(signal),
        ] => Some(Lifted {
            dom,
            from,
            to,
            function,
            signal,
        }),
        _ => None,
    }
}

// `fmap` with another function.
fn lifting(alloc: Global, at: Lifted<'_>, function: Term) -> Result<Term, NoMemory>
    ensures { IfOk result (λ e. e ≡ fmap_of at.entry.dom.now at.entry.from.now at.entry.to.now function at.entry.signal.now) }
{
    let dom = at.dom.copy(alloc)?;
    let from = at.from.copy(alloc)?;
    let to = at.to.copy(alloc)?;
    let signal = at.signal.copy(alloc)?;
    let args = vec![in alloc;
        Arg::OfType(dom),
        Arg::OfType(from),
        Arg::OfType(to),
        Arg::OfTerm(function),
        Arg::OfTerm(signal),
    ]?;
    Ok(Term {
        head: Head::PrimOf(Prim::Fmap),
        args,
    })
}

// The type of the term at the place.
fn type_at(
    alloc: Global,
    scene: &Scene,
    signature: &Signature,
    place: &Place,
    term: &Term,
) -> Result<Option<Ty>, NoMemory>
    requires ready { IsReady (setting_in scene.now) [] (reverse place.now.vars) }
    requires table { IsSignature scene.now.program.now signature.now }
    ensures some { IfOk result (λ r. IfSome r (λ t. Finds (setting_at (origins_of scene.now)) [] (reverse place.now.vars) term.now t)) }
    ensures none { IfOk result (λ r. IfNone r (HasNoType (setting_at (origins_of scene.now)) [] (reverse place.now.vars) term.now)) }
{
    settings_of_scenes();
    type_in_scope(alloc, scene, signature, &place.vars, term)
}

// The parameters of a lifted function that lacks a lambda for one of them.
fn parameters_without_lambdas(
    alloc: Global,
    scene: &Scene,
    signature: &Signature,
    place: &Place,
    function: &Term,
) -> Result<Option<Vec<Ty>>, NoMemory>
    requires order { HasNoCycle scene.now.program.now.datas }
    requires ready { IsReady (setting_in scene.now) [] (reverse place.now.vars) }
    requires table { IsSignature scene.now.program.now signature.now }
    ensures { IfOk result (λ r. AnswersLambdas (origins_of scene.now) (spot_of place.now) function.now (option_map (λ ts. ts.items) r)) }
{
    if is_made(function) {
        return Ok(None);
    }
    if !is_closed(alloc, function)? {
        return Ok(None);
    }
    found_is_type();
    one_found();
    let Some(ty) = type_at(alloc, scene, signature, place, function)? else {
        return Ok(None);
    };
    let datas = scene.program.datas.as_slice();
    let Some(params) = parameters(alloc, datas, &ty)? else {
        return Ok(None);
    };
    if lacks_lambdas(function, params.as_slice()) {
        Ok(Some(params))
    } else {
        Ok(None)
    }
}

/// `fmap g s` ==> `fmap (\x1 .. \xn . g x1 .. xn) s`. In circuits, where g is closed, no bare made definition and has the type of
/// functions of values that give a value, and fewer lambdas lead it than it has parameters.
pub(crate) fn eta(
    alloc: Global,
    scene: &Scene,
    signature: &Signature,
    place: &Place,
    args: &[Arg],
) -> Result<Option<Term>, NoMemory>
    requires order { HasNoCycle scene.now.program.now.datas }
    requires ready { IsReady (setting_in scene.now) [] (reverse place.now.vars) }
    requires table { IsSignature scene.now.program.now signature.now }
    ensures { IfOk result (AnswersCore (origins_of scene.now) (spot_of place.now) Eta (applied (prim Fmap) args.now)) }
{
    if !is_of_circuit(place.mode) {
        return Ok(None);
    }
    let Some(at) = as_lifted(args) else {
        return Ok(None);
    };
    let Some(params) = parameters_without_lambdas(alloc, scene, signature, place, at.function)?
    else {
        return Ok(None);
    };
    let function = expanded(alloc, params, at.function)?;
    Ok(Some(lifting(alloc, at, function)?))
}
