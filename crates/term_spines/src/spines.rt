//! Terms at arguments: the type of a term at the arguments so far.
ghost use Rattle.std.specs.Prelude.{◌≡◌, reverse, None, IfOk, IfSome, IsTrue, MatchOption};
ghost use Rattle.chw_types.specs.Arguments.{given};
ghost use Rattle.chw_types.specs.SameFound.{same_kind};
ghost use Rattle.chw_types.specs.TypeMoves.{sub};
ghost use Rattle.chw_types.specs.TypeTree.{for_all};
ghost use Rattle.chw_typing.specs.Scopes.{setting_in};
ghost use Rattle.term_spines.specs.Forms.{Takes, TakesNot, TakesType, TakesTypeNot};
ghost use Rattle.seen_types.specs.NumberOf.{IsNumberOf};
ghost use Rattle.term_spines.specs.Spines.{spine_found, AtTerm, AtType, CanWait, IsFunction, IsNumbered, IsStarted};

use crate::kinding::{kind_in, settled};
use crate::numbers::{filled_number, part_numbers, same_numbered};
use chw_base::{NoMemory, TyIx};
use chw_terms::Scene;
use chw_types::{Kind, Ty, TyNode, put_arguments, put_type, same};
use seen_types::closed::has_no_variables;
use seen_types::found::Found;
use seen_types::kept::degree;
use seen_types::seen::Seen;
use std::alloc::Global;
use type_numbers::TypeTable;

/// A term at the arguments so far. Type arguments may wait, so that a run of them is put into a type
/// at once, and only into what is looked at.
///
/// Each that waits has the kind of its binder and a degree of at most 1. So the type keeps its kind
/// where they are put, and that kind isn't found anew.
#[derive(Drop)]
pub struct Spine<'t> {
    // the type under the binders of those that wait, with its kind
    body: Found<'t>,
    // the number of that type, where it is known
    number: Option<u32>,
    // those that wait, the first one first
    waiting: Vec<Ty>,
}

/// A term of which no argument waits, with the number of its type, where it is known.
pub fn started<'t>(alloc: Global, found: Found<'t>, number: Option<u32>) -> Spine<'t>
    ensures is { spine_found result ≡ found.entry }
    ensures body { result.body ≡ found.entry }
    ensures number { result.number ≡ number }
{
    Spine {
        body: found,
        number,
        waiting: Vec::new(alloc),
    }
}

// The same, where the term has a type.
fn started_again<'t>(alloc: Global, found: Option<Found<'t>>) -> Option<Spine<'t>>
    ensures is { IsStarted found.entry result }
    ensures number { IfSome result (λ p. p.number ≡ None) }
{
    match found {
        Some(found) => Some(started(alloc, found, None)),
        None => None,
    }
}

/// The type of the term, with what waited put into it.
///
/// Where that would be deeper than `TYPE_DEPTH`, or have more parts than `TYPE_PARTS`, the answer is
/// want of memory.
pub fn finished<'t>(alloc: Global, spine: Spine<'t>) -> Result<Found<'t>, NoMemory>
    ensures { IfOk result (λ f. f ≡ spine_found spine.entry) }
{
    let Spine { body, waiting, .. } = spine;
    let kind = body.kind;
    let ty = filled(alloc, body.ty, waiting.as_slice())?;
    Ok(Found { ty, kind })
}

// A type with these put for its variables from 0 on, the last one for 0.
fn filled<'t>(alloc: Global, seen: Seen<'t>, waiting: &[Ty]) -> Result<Seen<'t>, NoMemory>
    ensures { IfOk result (λ r. r ≡ sub seen.entry (given (reverse waiting.now))) }
{
    if stays(seen.ty(), waiting) {
        return Ok(seen);
    }
    Ok(Seen::made(put_arguments(alloc, seen.ty(), waiting)?))
}

// Whether a type is the same with these put: there are none, or no variable is in the type.
fn stays(ty: &Ty, waiting: &[Ty]) -> bool
    ensures { IsTrue result → sub ty.now (given (reverse waiting.now)) ≡ ty.now }
{
    if waiting.is_empty() {
        return true;
    }
    has_no_variables(ty)
}

// The kind of the variable and the type that binds it, of a type with a type parameter.
fn bound_parts(ty: &Ty) -> Option<(Kind, &Ty)>
    ensures { MatchOption result ((k t : _) → ty.now ≡ for_all k t → ⊥) (λ p. ty.now ≡ for_all p.0 p.1.now) }
{
    match &ty.node {
        TyNode::Forall(kind, of) => Some((*kind, &**of)),
        _ => None,
    }
}

// Whether two kinds are the same.
fn same_kind(a: Kind, b: Kind) -> bool
    ensures { result ≡ same_kind a b }
{
    a == b
}

// What a function of this type gives for an argument of that type, where it takes one.
fn apply<'t>(alloc: Global, fun: Found<'t>, arg: Found) -> Result<Option<Found<'t>>, NoMemory>
    ensures { IfOk result (λ r. MatchOption r (TakesNot fun.entry.ty arg.entry.ty) (λ f. Takes fun.entry arg.entry.ty f)) }
{
    let Some((from, to)) = fun.ty.into_function() else {
        return Ok(None);
    };
    if !same(alloc, from.ty(), arg.ty.ty())? {
        return Ok(None);
    }
    Ok(Some(Found {
        ty: to,
        kind: fun.kind,
    }))
}

// What a term of this type gives at a type argument, where it takes one and some type with a kind is the same as what arises.
fn apply_type<'t>(
    alloc: Global,
    scene: &Scene,
    kinds: &[Kind],
    fun: Found<'t>,
    arg: &Ty,
) -> Result<Option<Found<'t>>, NoMemory>
    ensures { IfOk result (λ r. MatchOption r (TakesTypeNot (setting_in scene.now) (reverse kinds.now) fun.entry.ty arg.now) (λ f. TakesType (setting_in scene.now) (reverse kinds.now) fun.entry.ty arg.now f)) }
{
    let Some((kind, of)) = bound_parts(fun.ty.ty()) else {
        return Ok(None);
    };
    let Some(of_arg) = kind_in(scene, kinds, arg) else {
        return Ok(None);
    };
    if !same_kind(of_arg, kind) {
        return Ok(None);
    }
    let ty = put_type(alloc, of, TyIx { number: 0 }, arg)?;
    Ok(settled(alloc, scene, kinds, ty)?)
}

// Whether a type argument may wait at a term of this type: so where it has a type parameter, and
// the argument's degree is at most 1.
fn can_wait(ty: &Ty, arg: &Ty) -> bool
    ensures { IsTrue result → CanWait ty.now arg.now }
{
    match &ty.node {
        TyNode::Forall(_, _) => degree(arg) <= 1,
        _ => false,
    }
}

// A term of a type with a type parameter, at one more type argument, which waits.
fn wait<'t>(
    alloc: Global,
    scene: &Scene,
    kinds: &[Kind],
    spine: Spine<'t>,
    arg: &Ty,
) -> Result<Option<Spine<'t>>, NoMemory>
    requires { CanWait spine.body.ty arg.now }
    ensures is { IfOk result
        (AtType (setting_in scene.now) (reverse kinds.now) (spine_found spine.entry) arg.now) }
    ensures number { IfOk result (λ r. IfSome r (λ p. p.number ≡ None)) }
{
    let Spine {
        body,
        mut waiting,
        ..
    } = spine;
    let Some(of_arg) = kind_in(scene, kinds, arg) else {
        return Ok(None);
    };
    let Some((kind, ty)) = body.ty.into_bound() else {
        return Ok(None);
    };
    if !same_kind(of_arg, kind) {
        return Ok(None);
    }
    waiting.push(arg.copy(alloc)?)?;
    let kind = body.kind;
    let body = Found { ty, kind };
    Ok(Some(Spine {
        body,
        number: None,
        waiting,
    }))
}

/// A term at one more type argument, where it takes one and some type with a kind is the same as
/// what arises.
pub fn at_type<'t>(
    alloc: Global,
    scene: &Scene,
    kinds: &[Kind],
    spine: Spine<'t>,
    arg: &Ty,
) -> Result<Option<Spine<'t>>, NoMemory>
    ensures is { IfOk result
        (AtType (setting_in scene.now) (reverse kinds.now) (spine_found spine.entry) arg.now) }
    ensures number { IfOk result (λ r. IfSome r (λ p. p.number ≡ None)) }
{
    if can_wait(spine.body.ty.ty(), arg) {
        return wait(alloc, scene, kinds, spine, arg);
    }
    let fun = finished(alloc, spine)?;
    Ok(started_again(alloc, apply_type(alloc, scene, kinds, fun, arg)?))
}

// Whether a type is one of functions.
fn is_function(ty: &Ty) -> bool
    ensures { IsTrue result → IsFunction ty.now }
{
    match &ty.node {
        TyNode::Fun(_, _) => true,
        _ => false,
    }
}

// A function at one more term of this type, whose number this is, where it is known: what waits is put
// into the parameter's type, and goes on waiting for the result's.
fn take<'t>(
    alloc: Global,
    types: &TypeTable,
    spine: Spine<'t>,
    arg: Found,
    number: Option<u32>,
) -> Result<Option<Spine<'t>>, NoMemory>
    requires function { IsFunction spine.body.ty }
    requires spine { IsNumbered types.now spine }
    requires arg { IsNumberOf types.now number arg.ty }
    ensures is { IfOk result (AtTerm (spine_found spine.entry) arg.entry.ty) }
    ensures numbered { IfOk result (λ r. IfSome r (λ p. IsNumbered types.now p)) }
{
    let Spine {
        body,
        number: of,
        waiting,
    } = spine;
    let (of_from, of_to) = part_numbers(types, of);
    let Some((from, to)) = body.ty.into_function() else {
        return Ok(None);
    };
    let from = filled(alloc, from, waiting.as_slice())?;
    let of_from = filled_number(of_from, waiting.as_slice());
    if !same_numbered(alloc, from.ty(), of_from, arg.ty.ty(), number)? {
        return Ok(None);
    }
    let kind = body.kind;
    let body = Found { ty: to, kind };
    Ok(Some(Spine {
        body,
        number: of_to,
        waiting,
    }))
}

/// A term at one more term of this type, whose number this is, where it is known, if it takes one.
pub fn at_term<'t>(
    alloc: Global,
    types: &TypeTable,
    spine: Spine<'t>,
    arg: Found,
    number: Option<u32>,
) -> Result<Option<Spine<'t>>, NoMemory>
    requires spine { IsNumbered types.now spine }
    requires arg { IsNumberOf types.now number arg.ty }
    ensures is { IfOk result (AtTerm (spine_found spine.entry) arg.entry.ty) }
    ensures numbered { IfOk result (λ r. IfSome r (λ p. IsNumbered types.now p)) }
{
    if is_function(spine.body.ty.ty()) {
        return take(alloc, types, spine, arg, number);
    }
    let fun = finished(alloc, spine)?;
    Ok(started_again(alloc, apply(alloc, fun, arg)?))
}
