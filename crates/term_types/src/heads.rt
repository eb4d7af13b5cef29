//! The types of terms without parts.
ghost use Rattle.std.specs.Prelude.{◌≡◌, ◌<◌, ◌≤◌, length, reverse, IfOk, MatchOption};
ghost use Rattle.chw_typing.specs.HeadTypes.{widest, literal_type};
ghost use Rattle.chw_terms.specs.TermTree.{var, global, made, con, prim, lit};
ghost use Rattle.chw_typing.specs.Scopes.{setting_in};
ghost use Rattle.term_types.specs.Answers.{IsAnswer, IsSet};
ghost use Rattle.term_frames.specs.Signatures.{IsSignature};

use chw_base::limits::SCALAR_BITS;
use chw_base::{ConId, DefId, MadeId, NoMemory, VarIx};
use chw_bits::Bits;
use chw_prims::Prim;
use chw_terms::Scene;
use chw_types::{Kind, Scalar, Ty};
use seen_types::found::Found;
use seen_types::seen::Seen;
use std::alloc::Global;
use term_frames::constructors::con_type;
use term_frames::signature::{HeadType, Signature, place_in_all};
use term_frames::vars::Vars;
use term_spines::kinding::with_kind;

/// A variable's type.
pub(crate) fn variable<'t>(
    alloc: Global,
    scene: &Scene,
    kinds: &[Kind],
    vars: &Vars<'_, 't>,
    at: VarIx,
) -> Result<Option<Found<'t>>, NoMemory>
    requires { IsSet (setting_in scene.now) (reverse kinds.now) vars.now }
    ensures { IfOk result (IsAnswer (setting_in scene.now) (reverse kinds.now) vars.now.vars (var at.number)) }
{
    vars.at(alloc, at.number as usize, 0)
}

/// A definition's declared type.
pub(crate) fn definition<'t>(
    scene: &'t Scene,
    signature: &Signature,
    kinds: &[Kind],
    vars: &Vars,
    at: DefId,
) -> Option<Found<'t>>
    requires ready { IsSet (setting_in scene.now) (reverse kinds.now) vars.now }
    requires table { IsSignature scene.now.program.now signature.now }
    ensures { IsAnswer (setting_in scene.now) (reverse kinds.now) vars.now.vars (global at.number) result }
{
    let number = at.number as usize;
    let Some(it) = scene.program.defs.as_slice().get(number) else {
        return None;
    };
    let Some(kind) = signature.definition_kind(number) else {
        return None;
    };
    Some(Found {
        ty: Seen::written(&it.ty),
        kind,
    })
}

/// A made definition's type.
pub(crate) fn made_definition<'t>(
    scene: &'t Scene,
    kinds: &[Kind],
    vars: &Vars,
    at: MadeId,
) -> Option<Found<'t>>
    requires { IsSet (setting_in scene.now) (reverse kinds.now) vars.now }
    ensures { IsAnswer (setting_in scene.now) (reverse kinds.now) vars.now.vars (made at.number) result }
{
    match scene.made.get(at.number as usize) {
        Some(it) => with_kind(scene, kinds, Seen::written(&it.ty)),
        None => None,
    }
}

/// A constructor's type.
pub(crate) fn of_constructor<'t>(
    alloc: Global,
    scene: &Scene,
    signature: &'t Signature,
    kinds: &[Kind],
    vars: &Vars,
    at: ConId,
) -> Result<Option<Found<'t>>, NoMemory>
    requires ready { IsSet (setting_in scene.now) (reverse kinds.now) vars.now }
    requires table { IsSignature scene.now.program.now signature.now }
    ensures { IfOk result (IsAnswer (setting_in scene.now) (reverse kinds.now) vars.now.vars (con at.number)) }
{
    match signature.kept_type(at) {
        Some(it) => Ok(found_head(it)),
        None => made_constructor(alloc, scene, signature, kinds, vars, at),
    }
}

// A constructor's type, made anew.
fn made_constructor<'t>(
    alloc: Global,
    scene: &Scene,
    signature: &Signature,
    kinds: &[Kind],
    vars: &Vars,
    at: ConId,
) -> Result<Option<Found<'t>>, NoMemory>
    requires ready { IsSet (setting_in scene.now) (reverse kinds.now) vars.now }
    requires table { IsSignature scene.now.program.now signature.now }
    ensures { IfOk result (IsAnswer (setting_in scene.now) (reverse kinds.now) vars.now.vars (con at.number)) }
{
    match signature.constructors.at(at) {
        Some(it) => {
            let ty = con_type(alloc, &it)?;
            Ok(with_kind(scene, kinds, Seen::made(ty)))
        }
        None => Ok(None),
    }
}

/// A primitive's type.
pub(crate) fn primitive<'t>(
    scene: &Scene,
    signature: &'t Signature,
    kinds: &[Kind],
    vars: &Vars,
    which: Prim,
) -> Option<Found<'t>>
    requires ready { IsSet (setting_in scene.now) (reverse kinds.now) vars.now }
    requires table { IsSignature scene.now.program.now signature.now }
    ensures { IsAnswer (setting_in scene.now) (reverse kinds.now) vars.now.vars (prim which) result }
{
    match signature.primitives.as_slice().get(place_in_all(which)) {
        Some(it) => found_head(it),
        None => None,
    }
}

// What is found of a head of this type, where the type has a kind.
fn found_head(it: &HeadType) -> Option<Found<'_>>
    ensures { MatchOption result (it.now.kind ≡ None) (λ f. (f.ty ≡ it.now.ty) × (it.now.kind ≡ Some f.kind)) }
{
    match it.kind {
        Some(kind) => Some(Found {
            ty: Seen::written(&it.ty),
            kind,
        }),
        None => None,
    }
}

/// The scalar of so many bits, where they aren't too many for a literal.
pub(crate) fn literal_type(alloc: Global, sort: Scalar, bits: &Bits) -> Result<Option<Ty>, NoMemory>
    ensures { IfOk result (λ r. MatchOption r (widest < length bits.now) (λ t. (length bits.now ≤ widest) × (t ≡ literal_type sort bits.now))) }
{
    if bits.len() > SCALAR_BITS {
        return Ok(None);
    }
    Ok(Some(Ty::scalar(alloc, sort, Ty::nat(bits.len()))?))
}

/// A literal's type.
pub(crate) fn literal<'t>(
    alloc: Global,
    scene: &Scene,
    kinds: &[Kind],
    vars: &Vars,
    sort: Scalar,
    bits: &Bits,
) -> Result<Option<Found<'t>>, NoMemory>
    requires { IsSet (setting_in scene.now) (reverse kinds.now) vars.now }
    ensures { IfOk result (IsAnswer (setting_in scene.now) (reverse kinds.now) vars.now.vars (lit sort bits.now)) }
{
    match literal_type(alloc, sort, bits)? {
        Some(ty) => Ok(Some(Found {
            ty: Seen::made(ty),
            kind: Kind::Val,
        })),
        None => Ok(None),
    }
}
