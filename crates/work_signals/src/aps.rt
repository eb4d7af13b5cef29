//! What is made of a signal of functions on another signal.
ghost use Rattle.std.specs.Prelude.{◌≡◌, [], reverse, IfOk, None};
ghost use Rattle.chw_types.specs.References.{HasNoCycle};
ghost use Rattle.chw_types.specs.TypeTree.{TypeTree};
ghost use Rattle.chw_terms.specs.TermTree.{TermTree};
ghost use Rattle.chw_typing.specs.Scopes.{setting_in};
ghost use Rattle.rewriting.specs.Origins.{origins_of};
ghost use Rattle.rewriting.specs.Spots.{spot_of};
ghost use Rattle.rewriting.specs.Lifted.{IsFused, IsNotPure};
ghost use Rattle.rewriting.specs.Shapes.{fmap_of, pure_of};
ghost use Rattle.term_types.specs.Answers.{IsReady};
ghost use Rattle.term_frames.specs.Signatures.{IsSignature};
ghost use Rattle.work_signals.specs.Joined.{fmap_seen, ap_seen, AnswersJoin, both_mapped};

use crate::building::{lifted, lifted_between, mapped_to_composing, mapped_to_results};
use crate::composing::{behind_each, each_composed, on_value};
use crate::finding::{function_type, lifted_type, payload_type};
use crate::views::{Lifted, as_ap, as_fmap, as_pure};
use chw_base::NoMemory;
use chw_prims::Prim;
use chw_terms::{Place, Scene, Term};
use std::alloc::Global;
use term_types::Signature;
use type_ports::representable;

// `ap (pure f) s` ==> `fmap f s`
fn ap_pure(alloc: Global, outer: Lifted<'_>, function: &Term) -> Result<Term, NoMemory>
    ensures { IfOk result (λ e. e ≡ fmap_of outer.entry.dom.now outer.entry.from.now outer.entry.to.now function.now outer.entry.signal.now) }
{
    let function = function.copy(alloc)?;
    lifted(
        alloc,
        Prim::Fmap,
        outer.dom,
        outer.from,
        outer.to,
        function,
        outer.signal,
    )
}

// `ap u (pure v)` ==> `fmap (\(h : th) . h v) u`, where u is a signal of values of the type th
fn ap_value(
    alloc: Global,
    scene: &Scene,
    signature: &Signature,
    place: &Place,
    outer: Lifted<'_>,
    value: &Term,
) -> Result<Option<Term>, NoMemory>
    requires ready { IsReady (setting_in scene.now) [] (reverse place.now.vars) }
    requires table { IsSignature scene.now.program.now signature.now }
    requires not_pure { IsNotPure outer.function.now }
    requires fused { IsFused (origins_of scene.now) outer.from.now }
    requires inner { (d a : TypeTree) × (outer.signal.now ≡ pure_of d a value.now) }
    ensures { IfOk result (AnswersJoin (origins_of scene.now) (spot_of place.now) (ap_seen outer.entry)) }
{
    let Some(th) = payload_type(alloc, scene, signature, place, outer.function)? else {
        return Ok(None);
    };
    let function = on_value(alloc, th, value)?;
    let (from, to) = (outer.from, outer.to);
    let made = mapped_to_results(alloc, outer.dom, from, to, function, outer.function)?;
    Ok(Some(made))
}

// `ap u (fmap g w)` ==> `ap (fmap (\(h : th) . \(x : tx) . h (g x)) u) w`, where u is a signal of values
// of the type th, and g has the type `tx -> r`
fn ap_fmap(
    alloc: Global,
    scene: &Scene,
    signature: &Signature,
    place: &Place,
    outer: Lifted<'_>,
    inner: Lifted<'_>,
) -> Result<Option<Term>, NoMemory>
    requires ready { IsReady (setting_in scene.now) [] (reverse place.now.vars) }
    requires table { IsSignature scene.now.program.now signature.now }
    requires not_pure { IsNotPure outer.function.now }
    requires fused { IsFused (origins_of scene.now) outer.from.now }
    requires inner { outer.signal.now ≡ fmap_seen inner }
    ensures { IfOk result (AnswersJoin (origins_of scene.now) (spot_of place.now) (ap_seen outer.entry)) }
{
    let Some(th) = payload_type(alloc, scene, signature, place, outer.function)? else {
        return Ok(None);
    };
    let Some(parts) = function_type(alloc, scene, signature, place, inner.function)? else {
        return Ok(None);
    };
    let function = behind_each(alloc, th, parts, inner.function)?;
    let (had, gets) = ((outer.from, outer.to), (inner.from, outer.to));
    let (which, of) = (Prim::Fmap, outer.function);
    let first = lifted_between(alloc, which, outer.dom, had, gets, function, of)?;
    let made = lifted(
        alloc,
        Prim::Ap,
        outer.dom,
        inner.from,
        outer.to,
        first,
        inner.signal,
    )?;
    Ok(Some(made))
}

// `ap u (ap v w)` ==> `ap (ap (fmap (\(h : th) . \(k : tx -> r) . \(x : tx) . h (k x)) u) v) w`, where u is
// a signal of values of the type th, and v one of functions of the type `tx -> r`
fn ap_ap(
    alloc: Global,
    scene: &Scene,
    signature: &Signature,
    place: &Place,
    outer: Lifted<'_>,
    inner: Lifted<'_>,
) -> Result<Option<Term>, NoMemory>
    requires ready { IsReady (setting_in scene.now) [] (reverse place.now.vars) }
    requires table { IsSignature scene.now.program.now signature.now }
    requires not_pure { IsNotPure outer.function.now }
    requires fused { IsFused (origins_of scene.now) outer.from.now }
    requires inner { outer.signal.now ≡ ap_seen inner }
    ensures { IfOk result (AnswersJoin (origins_of scene.now) (spot_of place.now) (ap_seen outer.entry)) }
{
    let Some(th) = payload_type(alloc, scene, signature, place, outer.function)? else {
        return Ok(None);
    };
    let Some(parts) = lifted_type(alloc, scene, signature, place, inner.function)? else {
        return Ok(None);
    };
    let function = each_composed(alloc, th, parts)?;
    let first = lifted_twice(alloc, outer, inner, function)?;
    let made = lifted(
        alloc,
        Prim::Ap,
        outer.dom,
        inner.from,
        outer.to,
        first,
        inner.signal,
    )?;
    Ok(Some(made))
}

// `ap (fmap function u) v`, of an `ap u (ap v w)`.
fn lifted_twice(
    alloc: Global,
    outer: Lifted<'_>,
    inner: Lifted<'_>,
    function: Term,
) -> Result<Term, NoMemory>
    ensures { IfOk result (λ e. e ≡ both_mapped outer.entry inner.entry function) }
{
    let (a, b, c) = (inner.from, outer.from, outer.to);
    let first = mapped_to_composing(alloc, outer.dom, a, b, c, function, outer.function)?;
    let (which, of) = (Prim::Ap, inner.function);
    lifted_between(alloc, which, outer.dom, (a, b), (a, c), first, of)
}

// What becomes of functions, which aren't one value, on a signal that can't be named.
fn join_ap_of(
    alloc: Global,
    scene: &Scene,
    signature: &Signature,
    place: &Place,
    outer: Lifted<'_>,
) -> Result<Option<Term>, NoMemory>
    requires ready { IsReady (setting_in scene.now) [] (reverse place.now.vars) }
    requires table { IsSignature scene.now.program.now signature.now }
    requires not_pure { IsNotPure outer.function.now }
    requires fused { IsFused (origins_of scene.now) outer.from.now }
    ensures { IfOk result (AnswersJoin (origins_of scene.now) (spot_of place.now) (ap_seen outer.entry)) }
{
    if let Some(value) = as_pure(outer.signal) {
        return ap_value(alloc, scene, signature, place, outer, value);
    }
    let signal = outer.signal;
    if let Some(inner) = as_fmap(&signal.head, &signal.args) {
        return ap_fmap(alloc, scene, signature, place, outer, inner);
    }
    if let Some(inner) = as_ap(&signal.head, &signal.args) {
        return ap_ap(alloc, scene, signature, place, outer, inner);
    }
    Ok(None)
}

/// What becomes of a signal of functions on another: where the functions are one value, or where the other can't be named.
pub(crate) fn join_ap(
    alloc: Global,
    scene: &Scene,
    signature: &Signature,
    place: &Place,
    outer: Lifted<'_>,
) -> Result<Option<Term>, NoMemory>
    requires order { HasNoCycle scene.now.program.now.datas }
    requires ready { IsReady (setting_in scene.now) [] (reverse place.now.vars) }
    requires table { IsSignature scene.now.program.now signature.now }
    ensures { IfOk result (AnswersJoin (origins_of scene.now) (spot_of place.now) (ap_seen outer.entry)) }
{
    if let Some(function) = as_pure(outer.function) {
        return Ok(Some(ap_pure(alloc, outer, function)?));
    }
    if representable(alloc, outer.from, scene.program.datas.as_slice())? {
        return Ok(None);
    }
    join_ap_of(alloc, scene, signature, place, outer)
}
