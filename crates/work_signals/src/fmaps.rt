//! What is made of a function on a signal that another one makes.
ghost use Rattle.std.specs.Prelude.{◌≡◌, [], reverse, IfOk, None};
ghost use Rattle.chw_types.specs.References.{HasNoCycle};
ghost use Rattle.chw_types.specs.TypeTree.{TypeTree};
ghost use Rattle.chw_terms.specs.TermTree.{TermTree, app};
ghost use Rattle.chw_typing.specs.Scopes.{setting_in};
ghost use Rattle.rewriting.specs.Origins.{origins_of};
ghost use Rattle.rewriting.specs.Spots.{spot_of};
ghost use Rattle.rewriting.specs.Lifted.{IsFused};
ghost use Rattle.rewriting.specs.Shapes.{pure_of};
ghost use Rattle.term_types.specs.Answers.{IsReady};
ghost use Rattle.term_frames.specs.Signatures.{IsSignature};
ghost use Rattle.work_signals.specs.Joined.{fmap_seen, ap_seen, AnswersJoin};

use crate::building::{constant, lifted, lifted_between};
use crate::composing::{before_each, composed};
use crate::finding::{function_type, lifted_type};
use crate::views::{Lifted, as_ap, as_fmap, as_pure};
use chw_base::NoMemory;
use chw_prims::Prim;
use chw_terms::{Place, Scene, Term};
use std::alloc::Global;
use term_types::Signature;
use type_ports::representable;

// `fmap f (pure v)` ==> `pure (f v)`
fn fmap_pure(alloc: Global, outer: Lifted<'_>, value: &Term) -> Result<Term, NoMemory>
    ensures { IfOk result (λ e. e ≡ pure_of outer.entry.dom.now outer.entry.to.now (app outer.entry.function.now value.now)) }
{
    let applied = Term::app(outer.function.copy(alloc)?, value.copy(alloc)?)?;
    constant(alloc, outer.dom, outer.to, applied)
}

// `fmap f (fmap g s)` ==> `fmap (\(x : t) . f (g x)) s`, where g has the type `t -> u`
fn fmap_fmap(
    alloc: Global,
    scene: &Scene,
    signature: &Signature,
    place: &Place,
    outer: Lifted<'_>,
    inner: Lifted<'_>,
) -> Result<Option<Term>, NoMemory>
    requires ready { IsReady (setting_in scene.now) [] (reverse place.now.vars) }
    requires table { IsSignature scene.now.program.now signature.now }
    requires fused { IsFused (origins_of scene.now) outer.from.now }
    requires inner { outer.signal.now ≡ fmap_seen inner }
    ensures { IfOk result (AnswersJoin (origins_of scene.now) (spot_of place.now) (fmap_seen outer.entry)) }
{
    let Some(parts) = function_type(alloc, scene, signature, place, inner.function)? else {
        return Ok(None);
    };
    let function = composed(alloc, parts, outer.function, inner.function)?;
    let made = lifted(
        alloc,
        Prim::Fmap,
        outer.dom,
        inner.from,
        outer.to,
        function,
        inner.signal,
    )?;
    Ok(Some(made))
}

// `fmap f (ap u v)` ==> `ap (fmap (\(h : tx -> r) . \(x : tx) . f (h x)) u) v`, where u is a signal of
// functions of the type `tx -> r`
fn fmap_ap(
    alloc: Global,
    scene: &Scene,
    signature: &Signature,
    place: &Place,
    outer: Lifted<'_>,
    inner: Lifted<'_>,
) -> Result<Option<Term>, NoMemory>
    requires ready { IsReady (setting_in scene.now) [] (reverse place.now.vars) }
    requires table { IsSignature scene.now.program.now signature.now }
    requires fused { IsFused (origins_of scene.now) outer.from.now }
    requires inner { outer.signal.now ≡ ap_seen inner }
    ensures { IfOk result (AnswersJoin (origins_of scene.now) (spot_of place.now) (fmap_seen outer.entry)) }
{
    let Some(parts) = lifted_type(alloc, scene, signature, place, inner.function)? else {
        return Ok(None);
    };
    let function = before_each(alloc, parts, outer.function)?;
    let (had, gets) = ((inner.from, outer.from), (inner.from, outer.to));
    let (which, of) = (Prim::Fmap, inner.function);
    let first = lifted_between(alloc, which, outer.dom, had, gets, function, of)?;
    let made = lifted(
        alloc,
        Prim::Ap,
        outer.dom,
        inner.from,
        outer.to,
        first,
        inner.signal,
    )?;
    Ok(Some(made))
}

/// What becomes of a function on a signal: on one value, or on what another function gives, where that can't be named.
pub(crate) fn join_fmap(
    alloc: Global,
    scene: &Scene,
    signature: &Signature,
    place: &Place,
    outer: Lifted<'_>,
) -> Result<Option<Term>, NoMemory>
    requires order { HasNoCycle scene.now.program.now.datas }
    requires ready { IsReady (setting_in scene.now) [] (reverse place.now.vars) }
    requires table { IsSignature scene.now.program.now signature.now }
    ensures { IfOk result (AnswersJoin (origins_of scene.now) (spot_of place.now) (fmap_seen outer.entry)) }
{
    if let Some(value) = as_pure(outer.signal) {
        return Ok(Some(fmap_pure(alloc, outer, value)?));
    }
    if representable(alloc, outer.from, scene.program.datas.as_slice())? {
        return Ok(None);
    }
    let signal = outer.signal;
    if let Some(inner) = as_fmap(&signal.head, &signal.args) {
        return fmap_fmap(alloc, scene, signature, place, outer, inner);
    }
    if let Some(inner) = as_ap(&signal.head, &signal.args) {
        return fmap_ap(alloc, scene, signature, place, outer, inner);
    }
    Ok(None)
}
