//! The walk over a term.
ghost use Rattle.std.specs.Prelude.{◌≡◌, reverse, IfOk, IfSome, IsTrue, ◌↔◌, MatchOption};
ghost use Rattle.chw_terms.specs.TermTree.{TermTree, app, lam, ty_lam, letrec, vec_lit, case_of};
ghost use Rattle.chw_terms.specs.TermView.{tree_of, applied_to, applied, terms_of, group_of, alts_of};
ghost use Rattle.chw_typing.specs.Alternatives.{NoneHidden};
ghost use Rattle.chw_typing.specs.HeadTypes.{IsLookedAt};
ghost use Rattle.chw_typing.specs.Scopes.{HasKind, setting_in};
ghost use Rattle.chw_typing.specs.Typing.{HasTypeUpTo};
ghost use Rattle.term_types.specs.Answers.{IsAnswer, IsSet, IsTyped};
ghost use Rattle.term_types.specs.Cases.{Gives, GivesNothing};
ghost use Rattle.term_types.specs.Groups.{HaveTheirTypes};
ghost use Rattle.term_frames.specs.Signatures.{IsSignature};
ghost use Rattle.term_spines.specs.Spines.{spine_found, IsNumbered};
ghost use Rattle.term_types.specs.AtArguments.{IsSpineOf};

use crate::alternatives::{joined, none_hidden};
use crate::groups::group_types;
use crate::heads::{definition, literal, made_definition, of_constructor, primitive, variable};
use crate::patterns::{bound_types, is_looked_at};
use chw_base::{NoMemory, narrow};
use chw_terms::{Alt, Arg, Binding, Head, Scene, Term};
use chw_types::{Kind, Ty, same};
use seen_types::found::Found;
use seen_types::seen::{for_all, function, vector};
use std::alloc::Global;
use term_frames::numbering::{number_of_head, number_of_term};
use term_frames::signature::Signature;
use term_frames::vars::Vars;
use term_spines::kinding::{has_functions, kind_of_terms};
use term_spines::spines::{Spine, at_term, at_type, finished, started};

/// The type of a term with its kind, where it has one.
#[cycle(infer)]
pub(crate) fn infer<'t>(
    alloc: Global,
    scene: &'t Scene,
    signature: &'t Signature,
    kinds: &[Kind],
    vars: &Vars<'_, 't>,
    term: &'t Term,
) -> Result<Option<Found<'t>>, NoMemory>
    requires ready { IsSet (setting_in scene.now) (reverse kinds.now) vars.now }
    requires table { IsSignature scene.now.program.now signature.now }
    ensures { IfOk result (IsAnswer (setting_in scene.now) (reverse kinds.now) vars.now.vars term.now) }
{
    let Some(head) = infer_head(alloc, scene, signature, kinds, vars, &term.head)? else {
        return Ok(None);
    };
    let spine = started(alloc, head, number_of_head(signature, &term.head));
    infer_args(alloc, scene, signature, kinds, vars, spine, &term.args)
}

// The type of a term at these arguments.
#[cycle(infer)]
fn infer_args<'t>(
    alloc: Global,
    scene: &'t Scene,
    signature: &'t Signature,
    kinds: &[Kind],
    vars: &Vars<'_, 't>,
    head: Spine<'t>,
    args: &'t [Arg],
) -> Result<Option<Found<'t>>, NoMemory>
    requires ready { IsSet (setting_in scene.now) (reverse kinds.now) vars.now }
    requires table { IsSignature scene.now.program.now signature.now }
    requires number { IsNumbered signature.now.numbering.types head }
    ensures { IfOk result (λ r. (e : TermTree)
        → IsTyped (setting_in scene.now) (reverse kinds.now) vars.now.vars e (spine_found head.entry)
        → IsAnswer (setting_in scene.now) (reverse kinds.now) vars.now.vars (applied e args.now) r) }
{
    let mut spine = head;
    for arg in args {
        match infer_applied(alloc, scene, signature, kinds, vars, spine, arg)? {
            Some(next) => spine = next,
            None => return Ok(None),
        }
    }
    Ok(Some(finished(alloc, spine)?))
}

// A term at one more argument.
#[cycle(infer)]
fn infer_applied<'t>(
    alloc: Global,
    scene: &'t Scene,
    signature: &'t Signature,
    kinds: &[Kind],
    vars: &Vars<'_, 't>,
    spine: Spine<'t>,
    arg: &'t Arg,
) -> Result<Option<Spine<'t>>, NoMemory>
    requires ready { IsSet (setting_in scene.now) (reverse kinds.now) vars.now }
    requires table { IsSignature scene.now.program.now signature.now }
    requires number { IsNumbered signature.now.numbering.types spine }
    ensures is { IfOk result (λ r. (e : TermTree)
        → IsTyped (setting_in scene.now) (reverse kinds.now) vars.now.vars e (spine_found spine.entry)
        → IsSpineOf (setting_in scene.now) (reverse kinds.now) vars.now.vars (applied_to e arg.now) r) }
    ensures number { IfOk result (λ r. IfSome r (λ p. IsNumbered signature.now.numbering.types p)) }
{
    match arg {
        Arg::OfTerm(e) => infer_at_term(alloc, scene, signature, kinds, vars, spine, e),
        Arg::OfType(t) => at_type(alloc, scene, kinds, spine, t),
    }
}

// A term at one more term.
#[cycle(infer)]
fn infer_at_term<'t>(
    alloc: Global,
    scene: &'t Scene,
    signature: &'t Signature,
    kinds: &[Kind],
    vars: &Vars<'_, 't>,
    spine: Spine<'t>,
    term: &'t Term,
) -> Result<Option<Spine<'t>>, NoMemory>
    requires ready { IsSet (setting_in scene.now) (reverse kinds.now) vars.now }
    requires table { IsSignature scene.now.program.now signature.now }
    requires number { IsNumbered signature.now.numbering.types spine }
    ensures is { IfOk result (λ r. (e : TermTree)
        → IsTyped (setting_in scene.now) (reverse kinds.now) vars.now.vars e (spine_found spine.entry)
        → IsSpineOf (setting_in scene.now) (reverse kinds.now) vars.now.vars (app e term.now) r) }
    ensures number { IfOk result (λ r. IfSome r (λ p. IsNumbered signature.now.numbering.types p)) }
{
    let Some(found) = infer(alloc, scene, signature, kinds, vars, term)? else {
        return Ok(None);
    };
    let number = number_of_term(signature, term);
    at_term(alloc, &signature.numbering.types, spine, found, number)
}

// The type of a head.
#[cycle(infer)]
fn infer_head<'t>(
    alloc: Global,
    scene: &'t Scene,
    signature: &'t Signature,
    kinds: &[Kind],
    vars: &Vars<'_, 't>,
    head: &'t Head,
) -> Result<Option<Found<'t>>, NoMemory>
    requires ready { IsSet (setting_in scene.now) (reverse kinds.now) vars.now }
    requires table { IsSignature scene.now.program.now signature.now }
    ensures { IfOk result (IsAnswer (setting_in scene.now) (reverse kinds.now) vars.now.vars (tree_of head.now)) }
{
    match head {
        Head::Var(x) => variable(alloc, scene, kinds, vars, *x),
        Head::Global(d) => Ok(definition(scene, signature, kinds, vars, *d)),
        Head::Made(m) => Ok(made_definition(scene, kinds, vars, *m)),
        Head::Lam(ty, body) => infer_lam(alloc, scene, signature, kinds, vars, ty, body),
        Head::TyLam(kind, body) => infer_ty_lam(alloc, scene, signature, kinds, vars, *kind, body),
        Head::LetRec(bindings, body) => {
            infer_letrec(alloc, scene, signature, kinds, vars, bindings, body)
        }
        Head::Con(c) => of_constructor(alloc, scene, signature, kinds, vars, *c),
        Head::PrimOf(which) => Ok(primitive(scene, signature, kinds, vars, *which)),
        Head::Lit(sort, bits) => literal(alloc, scene, kinds, vars, *sort, bits),
        Head::VecLit(ty, elements) => infer_vector(
            alloc, scene, signature, kinds, vars, ty, elements,
        ),
        Head::Case(on, alts) => infer_case(alloc, scene, signature, kinds, vars, on, alts),
    }
}

// The type of a lambda.
#[cycle(infer)]
fn infer_lam<'t>(
    alloc: Global,
    scene: &'t Scene,
    signature: &'t Signature,
    kinds: &[Kind],
    vars: &Vars<'_, 't>,
    ty: &'t Ty,
    body: &'t Term,
) -> Result<Option<Found<'t>>, NoMemory>
    requires ready { IsSet (setting_in scene.now) (reverse kinds.now) vars.now }
    requires table { IsSignature scene.now.program.now signature.now }
    ensures { IfOk result (IsAnswer (setting_in scene.now) (reverse kinds.now) vars.now.vars (lam ty.now body.now)) }
{
    let Some(from) = kind_of_terms(scene, kinds, ty) else {
        return Ok(None);
    };
    let inner = (&*vars).with_one(&*ty, from);
    let Some(to) = infer(alloc, scene, signature, kinds, &inner, body)? else {
        return Ok(None);
    };
    if !has_functions(from, to.kind) {
        return Ok(None);
    }
    let kind = to.kind;
    let ty = function(alloc, ty, to.ty)?;
    Ok(Some(Found { ty, kind }))
}

// The type of a type lambda. The kinds are copied, as few type lambdas stand in one another.
#[cycle(infer)]
fn infer_ty_lam<'t>(
    alloc: Global,
    scene: &'t Scene,
    signature: &'t Signature,
    kinds: &[Kind],
    vars: &Vars<'_, 't>,
    kind: Kind,
    body: &'t Term,
) -> Result<Option<Found<'t>>, NoMemory>
    requires ready { IsSet (setting_in scene.now) (reverse kinds.now) vars.now }
    requires table { IsSignature scene.now.program.now signature.now }
    ensures { IfOk result (IsAnswer (setting_in scene.now) (reverse kinds.now) vars.now.vars (ty_lam kind body.now)) }
{
    let mut inner = Vec::from_slice(alloc, kinds)?;
    inner.push(kind)?;
    let vars = (&*vars).under_type();
    let Some(of) = infer(alloc, scene, signature, &inner, &vars, body)? else {
        return Ok(None);
    };
    let of_kind = of.kind;
    let ty = for_all(alloc, kind, of.ty)?;
    Ok(Some(Found { ty, kind: of_kind }))
}

// The type of a letrec.
#[cycle(infer)]
fn infer_letrec<'t>(
    alloc: Global,
    scene: &'t Scene,
    signature: &'t Signature,
    kinds: &[Kind],
    vars: &Vars<'_, 't>,
    bindings: &'t [Binding],
    body: &'t Term,
) -> Result<Option<Found<'t>>, NoMemory>
    requires ready { IsSet (setting_in scene.now) (reverse kinds.now) vars.now }
    requires table { IsSignature scene.now.program.now signature.now }
    ensures { IfOk result (IsAnswer (setting_in scene.now) (reverse kinds.now) vars.now.vars (letrec (group_of bindings.now) body.now)) }
{
    let Some(group) = group_types(alloc, scene, kinds, bindings)? else {
        return Ok(None);
    };
    let inner = (&*vars).with_group(group.types.as_slice());
    let Some(found) = infer(alloc, scene, signature, kinds, &inner, body)? else {
        return Ok(None);
    };
    if !has_functions(group.kind, found.kind) {
        return Ok(None);
    }
    if !have_their_types(alloc, scene, signature, kinds, &inner, bindings)? {
        return Ok(None);
    }
    Ok(Some(found))
}

// Whether the right side of each binding has the declared type.
#[cycle(infer)]
fn have_their_types<'t>(
    alloc: Global,
    scene: &'t Scene,
    signature: &'t Signature,
    kinds: &[Kind],
    vars: &Vars<'_, 't>,
    bindings: &'t [Binding],
) -> Result<bool, NoMemory>
    requires ready { IsSet (setting_in scene.now) (reverse kinds.now) vars.now }
    requires table { IsSignature scene.now.program.now signature.now }
    ensures { IfOk result (λ r. IsTrue r ↔ HaveTheirTypes (setting_in scene.now) (reverse kinds.now) vars.now.vars bindings.now) }
{
    for b in bindings {
        if !has_type(alloc, scene, signature, kinds, vars, &b.ty, &b.body)? {
            return Ok(false);
        }
    }
    Ok(true)
}

// Whether a term has a type that is the same as this one.
#[cycle(infer)]
fn has_type<'t>(
    alloc: Global,
    scene: &'t Scene,
    signature: &'t Signature,
    kinds: &[Kind],
    vars: &Vars<'_, 't>,
    ty: &'t Ty,
    term: &'t Term,
) -> Result<bool, NoMemory>
    requires ready { IsSet (setting_in scene.now) (reverse kinds.now) vars.now }
    requires table { IsSignature scene.now.program.now signature.now }
    ensures { IfOk result (λ r. IsTrue r ↔ HasTypeUpTo (setting_in scene.now) (reverse kinds.now) vars.now.vars term.now ty.now) }
{
    match infer(alloc, scene, signature, kinds, vars, term)? {
        Some(found) => Ok(same(alloc, ty, found.ty.ty())?),
        None => Ok(false),
    }
}

// The type of a vector.
#[cycle(infer)]
fn infer_vector<'t>(
    alloc: Global,
    scene: &'t Scene,
    signature: &'t Signature,
    kinds: &[Kind],
    vars: &Vars<'_, 't>,
    ty: &'t Ty,
    elements: &'t [Term],
) -> Result<Option<Found<'t>>, NoMemory>
    requires ready { IsSet (setting_in scene.now) (reverse kinds.now) vars.now }
    requires table { IsSignature scene.now.program.now signature.now }
    ensures { IfOk result (IsAnswer (setting_in scene.now) (reverse kinds.now) vars.now.vars (vec_lit ty.now (terms_of elements.now))) }
{
    let Some(kind) = kind_of_terms(scene, kinds, ty) else {
        return Ok(None);
    };
    for e in elements {
        if !has_type(alloc, scene, signature, kinds, vars, ty, e)? {
            return Ok(None);
        }
    }
    let len = narrow(elements.len())?;
    let ty = vector(alloc, len, ty)?;
    Ok(Some(Found { ty, kind }))
}

// The type of a case.
#[cycle(infer)]
fn infer_case<'t>(
    alloc: Global,
    scene: &'t Scene,
    signature: &'t Signature,
    kinds: &[Kind],
    vars: &Vars<'_, 't>,
    on: &'t Term,
    alts: &'t [Alt],
) -> Result<Option<Found<'t>>, NoMemory>
    requires ready { IsSet (setting_in scene.now) (reverse kinds.now) vars.now }
    requires table { IsSignature scene.now.program.now signature.now }
    ensures { IfOk result (IsAnswer (setting_in scene.now) (reverse kinds.now) vars.now.vars (case_of on.now (alts_of alts.now))) }
{
    let Some(on) = infer(alloc, scene, signature, kinds, vars, on)? else {
        return Ok(None);
    };
    if !is_looked_at(on.ty.ty()) {
        return Ok(None);
    }
    if !none_hidden(alloc, alts)? {
        return Ok(None);
    }
    infer_alts(alloc, scene, signature, kinds, vars, &on, alts)
}

// The type of a case on what has this type, by its alternatives.
#[cycle(infer)]
fn infer_alts<'t>(
    alloc: Global,
    scene: &'t Scene,
    signature: &'t Signature,
    kinds: &[Kind],
    vars: &Vars<'_, 't>,
    on: &Found<'t>,
    alts: &'t [Alt],
) -> Result<Option<Found<'t>>, NoMemory>
    requires ready { IsSet (setting_in scene.now) (reverse kinds.now) vars.now }
    requires table { IsSignature scene.now.program.now signature.now }
    requires on { HasKind (setting_in scene.now) (reverse kinds.now) on.now.ty on.now.kind }
    ensures { IfOk result (λ r. (e : TermTree) → IsTyped (setting_in scene.now) (reverse kinds.now) vars.now.vars e on.now → IsLookedAt on.now.ty → NoneHidden (alts_of alts.now)
        → IsAnswer (setting_in scene.now) (reverse kinds.now) vars.now.vars (case_of e (alts_of alts.now)) r) }
{
    let mut given = None;
    for alt in alts {
        let Some(next) = infer_alt(alloc, scene, signature, kinds, vars, on, alt)? else {
            return Ok(None);
        };
        let Some(so_far) = joined(alloc, on, given, next)? else {
            return Ok(None);
        };
        given = Some(so_far);
    }
    Ok(given)
}

// The type of an alternative.
#[cycle(infer)]
fn infer_alt<'t>(
    alloc: Global,
    scene: &'t Scene,
    signature: &'t Signature,
    kinds: &[Kind],
    vars: &Vars<'_, 't>,
    on: &Found<'t>,
    alt: &'t Alt,
) -> Result<Option<Found<'t>>, NoMemory>
    requires ready { IsSet (setting_in scene.now) (reverse kinds.now) vars.now }
    requires table { IsSignature scene.now.program.now signature.now }
    requires on { HasKind (setting_in scene.now) (reverse kinds.now) on.now.ty on.now.kind }
    ensures { IfOk result (λ r. MatchOption r (GivesNothing (setting_in scene.now) (reverse kinds.now) vars.now.vars on.now.ty alt.now) (λ f. Gives (setting_in scene.now) (reverse kinds.now) vars.now.vars on.now.ty alt.now f)) }
{
    let Some(bound) = bound_types(alloc, scene, signature, kinds, &on.ty, &alt.pattern)? else {
        return Ok(None);
    };
    let inner = (&*vars).with_bound(&bound);
    infer(alloc, scene, signature, kinds, &inner, &alt.body)
}
