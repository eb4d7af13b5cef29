//! The kinds of types, as they are found.
ghost use Rattle.std.specs.Prelude.{◌≡◌, reverse, IfOk, MatchOption};
ghost use Rattle.chw_types.specs.Kinds.{IsOfTerms};
ghost use Rattle.chw_typing.specs.Scopes.{HasKind, IsTermType, setting_in};
ghost use Rattle.term_spines.specs.Kinding.{has_functions, LacksKind, LacksKindUpTo, IsWithKind, IsSettled};

use chw_base::NoMemory;
use chw_terms::Scene;
use chw_types::{Kind, Ty, kind_of};
use chw_typing::without_zeros;
use seen_types::found::Found;
use seen_types::seen::Seen;
use std::alloc::Global;

/// The kind of a type, where it has one.
pub(crate) fn kind_in(scene: &Scene, kinds: &[Kind], ty: &Ty) -> Option<Kind>
    ensures { MatchOption result (LacksKind (setting_in scene.now) (reverse kinds.now) ty.now) (λ k. HasKind (setting_in scene.now) (reverse kinds.now) ty.now k) }
{
    let datas = scene.program.datas.as_slice();
    let domains = scene.program.domains.as_slice();
    match kind_of(ty, kinds, datas, domains) {
        Ok(kind) => Some(kind),
        Err(_) => None,
    }
}

/// A type with its kind, where it has one.
pub fn with_kind<'t>(scene: &Scene, kinds: &[Kind], ty: Seen<'t>) -> Option<Found<'t>>
    ensures { MatchOption result (LacksKind (setting_in scene.now) (reverse kinds.now) ty.entry) (λ f. IsWithKind (setting_in scene.now) (reverse kinds.now) ty.entry f) }
{
    match kind_in(scene, kinds, ty.ty()) {
        Some(kind) => Some(Found { ty, kind }),
        None => None,
    }
}

/// A type that arose by putting types, with its kind. Where naturals came to have too great a degree, it is another one that is the same up
/// to naturals, if one has a kind.
pub fn settled<'t>(
    alloc: Global,
    scene: &Scene,
    kinds: &[Kind],
    ty: Ty,
) -> Result<Option<Found<'t>>, NoMemory>
    ensures { IfOk result (λ r. MatchOption r (LacksKindUpTo (setting_in scene.now) (reverse kinds.now) ty)
        (λ f. IsSettled (setting_in scene.now) (reverse kinds.now) ty f)) }
{
    let Some(kind) = kind_in(scene, kinds, &ty) else {
        let less = without_zeros(alloc, &ty)?;
        return Ok(with_kind(scene, kinds, Seen::made(less)));
    };
    Ok(Some(Found {
        ty: Seen::made(ty),
        kind,
    }))
}

/// Whether there are functions from types of the first kind to types of the second.
pub fn has_functions(from: Kind, to: Kind) -> bool
    ensures { result ≡ has_functions from to }
{
    match (from, to) {
        (Kind::Val, Kind::Val) => true,
        (Kind::Val, Kind::Cir) => true,
        (Kind::Cir, Kind::Cir) => true,
        _ => false,
    }
}

/// The kind of a type, where it is one of types that terms have.
pub fn kind_of_terms(scene: &Scene, kinds: &[Kind], ty: &Ty) -> Option<Kind>
    ensures { MatchOption result (IsTermType (setting_in scene.now) (reverse kinds.now) ty.now → ⊥) (λ k. HasKind (setting_in scene.now) (reverse kinds.now) ty.now k × IsOfTerms k) }
{
    let Some(kind) = kind_in(scene, kinds, ty) else {
        return None;
    };
    if kind.is_of_terms() { Some(kind) } else { None }
}
