//! The first definition whose body hasn't its declared type.
ghost use Rattle.std.specs.Prelude.{IfOk, MatchBool, MatchOption};
ghost use Rattle.chw_check.specs.Bodies.{AllHaveTheirTypes, IsFirstUntyped};
ghost use Rattle.term_frames.specs.Signatures.{IsSignature};
ghost use Rattle.chw_typing.specs.Programs.{HasItsType, IsSound, setting_of};

use chw_base::NoMemory;
use chw_terms::{Def, Program, Scene};
use chw_types::same;
use chw_typing::found_laws::found_is_type;
use chw_typing::laws::one_type;
use std::alloc::Global;
use term_types::{Signature, type_of_in};

/// The first definition of a program whose body has no type, or another than the declared one; nothing where there is none.
pub(crate) fn first_untyped<'p>(
    alloc: Global,
    program: &'p Program,
    signature: &Signature,
) -> Result<Option<&'p Def>, NoMemory>
    requires sound { IsSound (setting_of program.now) }
    requires table { IsSignature program.now signature.now }
    ensures { IfOk result (λ first. MatchOption first (AllHaveTheirTypes program.now) (λ it. IsFirstUntyped program.now it.now)) }
{
    for it in program.defs.as_slice() {
        if !has_its_type(alloc, program, signature, it)? {
            return Ok(Some(it));
        }
    }
    Ok(None)
}

/// Whether the body of a definition has the declared type, up to naturals.
fn has_its_type(
    alloc: Global,
    program: &Program,
    signature: &Signature,
    it: &Def,
) -> Result<bool, NoMemory>
    requires sound { IsSound (setting_of program.now) }
    requires table { IsSignature program.now signature.now }
    ensures { IfOk result (λ r. MatchBool r (HasItsType program.now it.now) (HasItsType program.now it.now → ⊥)) }
{
    found_is_type();
    one_type();
    let scene = Scene { program, made: &[] };
    let found = type_of_in(alloc, &scene, signature, &[], &[], &it.body);
    let Scene {
        program: _,
        made: _,
    } = scene;
    match found? {
        Some(ty) => same(alloc, &it.ty, &ty),
        None => Ok(false),
    }
}
