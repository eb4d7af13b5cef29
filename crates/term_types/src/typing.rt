//! The type of a term.
ghost use Rattle.std.specs.Prelude.{◌≡◌, [], reverse, IfOk, IfSome, IfNone};
ghost use Rattle.chw_typing.specs.Scopes.{setting_in};
ghost use Rattle.chw_typing.specs.Finding.{Finds};
ghost use Rattle.term_types.specs.Answers.{HasNoType, IsReady, IsSet};
ghost use Rattle.term_frames.specs.Signatures.{IsSignature};

use crate::walk::infer;
use chw_base::NoMemory;
use chw_terms::{GapBuffer, Scene, Term};
use chw_types::{Kind, Ty};
use std::alloc::Global;
use term_frames::fields::outside;
use term_frames::signature::Signature;
use term_frames::vars::Vars;

/// The type of a term, with variables of these types in scope, the outermost first, and no type variables. Nothing comes exactly where the
/// term has no type.
///
/// The scene is sound, as that of every typed program is, and terms have the types of the variables.
/// Where a number would pass 32 bits, the answer is want of memory.
pub fn type_of(
    alloc: Global,
    scene: &Scene,
    vars: &[Ty],
    term: &Term,
) -> Result<Option<Ty>, NoMemory>
    requires ready { IsReady (setting_in scene.now) [] (reverse vars.now) }
    ensures some { IfOk result (λ r. IfSome r (λ t. Finds (setting_in scene.now) [] (reverse vars.now) term.now t)) }
    ensures none { IfOk result (λ r. IfNone r (HasNoType (setting_in scene.now) [] (reverse vars.now) term.now)) }
{
    let signature = Signature::of(alloc, scene.program)?;
    let found = type_of_in(alloc, scene, &signature, &[], vars, term);
    drop(signature);
    found
}

/// The type of a term, with type variables of these kinds and variables of these types in scope, the outermost first, each type seen from
/// the place of the term. Nothing comes exactly where the term has no type.
///
/// The signature is that of the scene's program, which is made once for many terms. Of variables that don't occur in the term nothing is
/// found. The rest is as at `type_of`.
pub fn type_of_in(
    alloc: Global,
    scene: &Scene,
    signature: &Signature,
    kinds: &[Kind],
    vars: &[Ty],
    term: &Term,
) -> Result<Option<Ty>, NoMemory>
    requires ready { IsReady (setting_in scene.now) (reverse kinds.now) (reverse vars.now) }
    requires table { IsSignature scene.now.program.now signature.now }
    ensures some { IfOk result (λ r. IfSome r (λ t. Finds (setting_in scene.now) (reverse kinds.now) (reverse vars.now) term.now t)) }
    ensures none { IfOk result (λ r. IfNone r (HasNoType (setting_in scene.now) (reverse kinds.now) (reverse vars.now) term.now)) }
{
    let bound = outside(scene, kinds, vars);
    let none = Vars::none();
    let inner = none.with_bound(&bound);
    type_within(alloc, scene, signature, kinds, &inner, term)
}

/// The type of a term, with variables of these types in scope, the outermost first, and no type variables. The rest is as at
/// `type_of_in`.
pub fn type_in_scope(
    alloc: Global,
    scene: &Scene,
    signature: &Signature,
    vars: &GapBuffer<Ty>,
    term: &Term,
) -> Result<Option<Ty>, NoMemory>
    requires ready { IsReady (setting_in scene.now) [] (reverse vars.now) }
    requires table { IsSignature scene.now.program.now signature.now }
    ensures some { IfOk result (λ r. IfSome r (λ t. Finds (setting_in scene.now) [] (reverse vars.now) term.now t)) }
    ensures none { IfOk result (λ r. IfNone r (HasNoType (setting_in scene.now) [] (reverse vars.now) term.now)) }
{
    let (before, behind, last) = vars.parts();
    let first = outside(scene, &[], before);
    let second = outside(scene, &[], behind);
    let third = outside(scene, &[], last);
    let none = Vars::none();
    let outer = none.with_bound(&first);
    let middle = outer.with_bound(&second);
    let inner = middle.with_bound(&third);
    type_within(alloc, scene, signature, &[], &inner, term)
}

// The type of a term in this scope, with type variables of these kinds.
fn type_within(
    alloc: Global,
    scene: &Scene,
    signature: &Signature,
    kinds: &[Kind],
    vars: &Vars,
    term: &Term,
) -> Result<Option<Ty>, NoMemory>
    requires ready { IsSet (setting_in scene.now) (reverse kinds.now) vars.now }
    requires table { IsSignature scene.now.program.now signature.now }
    ensures some { IfOk result (λ r. IfSome r (λ t. Finds (setting_in scene.now) (reverse kinds.now) vars.now.vars term.now t)) }
    ensures none { IfOk result (λ r. IfNone r (HasNoType (setting_in scene.now) (reverse kinds.now) vars.now.vars term.now)) }
{
    match infer(alloc, scene, signature, kinds, vars, term)? {
        Some(found) => Ok(Some(found.ty.into_ty(alloc)?)),
        None => Ok(None),
    }
}
