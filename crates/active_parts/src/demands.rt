//! Which arguments of a primitive are active places, and in which mode.
ghost use Rattle.std.specs.Prelude.{◌≡◌, ◌<◌, ℕ, [], ◌↔◌, reverse, IfOk, IsTrue, MatchOption, slice_get, Some};
ghost use Rattle.chw_prims.specs.declared.names.TheConstants.{ALL};
ghost use Rattle.chw_prims.specs.Schemas.{schema_type};
ghost use Rattle.chw_terms.specs.declared.program.Program.{Program};
ghost use Rattle.chw_terms.specs.declared.scene.Mode.{Mode};
ghost use Rattle.chw_typing.specs.Scopes.{setting_in, AreTermTypes};
ghost use Rattle.rewriting.specs.Origins.{origins_of};
ghost use Rattle.rewriting.specs.Spots.{spot_of, asked_for, LooksAt, BeginsWith, IsOnWords, TakesElement};
ghost use Rattle.term_frames.specs.Signatures.{IsSignature};
ghost use Rattle.active_parts.specs.Below.{IsConstantAt, IsDemandedAt, IsContentAt, WhyActive};
ghost use Rattle.active_parts.specs.Grounds.{IsGround};

use crate::ground::Ground;
use crate::modes::{builds_circuit, head_mode, is_constant};
use crate::naming::is_unnamed;
use chw_base::NoMemory;
use chw_prims::{Prim, Row};
use chw_terms::{Arg, Mode, Place, Term};
use chw_types::{Ty, TyNode};
use std::alloc::Global;
use term_types::Signature;
use type_ports::representable;

// Whether a primitive looks at the argument of this number.
fn looks_at(which: Prim, number: usize) -> bool
    ensures { IsTrue result ↔ LooksAt which number }
{
    match which {
        Prim::VGet | Prim::VGetC | Prim::VAt => number == 3,
        Prim::Fmap => number == 4,
        Prim::Ap => number == 3 || number == 4,
        _ => false,
    }
}

// The number of the payload's type, where a primitive begins with the argument of this number.
fn payload_number(which: Prim, number: usize) -> Option<usize>
    ensures { MatchOption result ((j : ℕ) → BeginsWith which number j → ⊥) (λ j. BeginsWith which number j × ((k : ℕ) → BeginsWith which number k → k ≡ j)) }
{
    match which {
        Prim::Pure | Prim::Register if number == 2 => Some(1),
        Prim::BlockRam if number == 4 => Some(3),
        _ => None,
    }
}

// Whether a primitive is one on words.
fn is_on_words(which: Prim) -> bool
    ensures { IsTrue result ↔ IsOnWords which }
{
    match Row::of(which) {
        Row::Binary(_) | Row::WideSum(_) | Row::WideProduct(_) | Row::Unary(_) => true,
        Row::Shift(_) | Row::Compare(_) | Row::Extend(_) | Row::Truncate(_) => true,
        Row::Cut | Row::Joined | Row::Reduce | Row::Packed(_) | Row::Unpacked(_) => true,
        _ => false,
    }
}

// Whether a primitive takes an element of a vector.
fn takes_element(which: Prim) -> bool
    ensures { IsTrue result ↔ TakesElement which }
{
    match which {
        Prim::VGet | Prim::VGetC | Prim::VAt => true,
        _ => false,
    }
}

// Whether a type asks for more arguments than so many.
fn asks_past(ty: &Ty, number: usize) -> bool
    ensures { IsTrue result ↔ number < asked_for ty.now }
{
    match &ty.node {
        TyNode::Forall(_, to) | TyNode::Fun(_, to) => number == 0 || asks_past(to, number - 1),
        _ => false,
    }
}

// The place of a primitive among all of them.
fn place_in_all(which: Prim) -> usize
    ensures { slice_get ALL result ≡ Some which }
{
    which as usize
}

// The type of a primitive.
fn schema_of<'s>(signature: &'s Signature, which: Prim) -> &'s Ty
    requires { (p : Program) × IsSignature p signature.now }
    ensures { result.now ≡ schema_type which }
{
    let Some(it) = signature.primitives.as_slice().get(place_in_all(which)) else {
        unreachable!()
    };
    &it.ty
}

// Whether the argument of this number of so many is one of a constant, below a primitive in a constant.
fn is_constant_at(signature: &Signature, which: Prim, count: usize, number: usize) -> bool
    requires { (p : Program) × IsSignature p signature.now }
    ensures { IsTrue result ↔ IsConstantAt which count number }
{
    let schema = schema_of(signature, which);
    if !asks_past(schema, number) {
        return false;
    }
    takes_element(which) || (is_on_words(which) && !asks_past(schema, count))
}

// Whether a primitive looks at the argument of this number, and its type isn't named.
fn is_demanded(
    alloc: Global,
    ground: &Ground,
    which: Prim,
    number: usize,
    at: &Term,
    place: &Place,
) -> Result<bool, NoMemory>
    requires ground { IsGround ground.now }
    requires scope { AreTermTypes (setting_in ground.now.scene.now) [] (reverse place.now.vars) }
    ensures { IfOk result (λ r. IsTrue r ↔ IsDemandedAt (origins_of ground.now.scene.now) (spot_of place.now) which number at.now) }
{
    if !looks_at(which, number) {
        return Ok(false);
    }
    is_unnamed(alloc, ground, at, place)
}

// Whether a primitive begins with the argument of this number, at a representable payload.
fn is_content(
    alloc: Global,
    ground: &Ground,
    which: Prim,
    args: &[Arg],
    number: usize,
) -> Result<bool, NoMemory>
    requires ground { IsGround ground.now }
    ensures { IfOk result (λ r. IsTrue r ↔ IsContentAt ground.now.scene.now.program.now.datas which args.now number) }
{
    let Some(payload) = payload_number(which, number) else {
        return Ok(false);
    };
    let Some(Arg::OfType(ty)) = args.get(payload) else {
        return Ok(false);
    };
    representable(alloc, ty, ground.scene.program.datas.as_slice())
}

/// The mode of the argument of this number, where it is an active place below a primitive on these arguments.
pub(crate) fn mode_at(
    alloc: Global,
    ground: &Ground,
    which: Prim,
    args: &[Arg],
    number: usize,
    at: &Term,
    place: &Place,
) -> Result<Option<Mode>, NoMemory>
    requires ground { IsGround ground.now }
    requires scope { AreTermTypes (setting_in ground.now.scene.now) [] (reverse place.now.vars) }
    ensures { IfOk result (λ r. MatchOption r ((m : Mode) → WhyActive (origins_of ground.now.scene.now) (spot_of place.now) which args.now number at.now m → ⊥) (WhyActive (origins_of ground.now.scene.now) (spot_of place.now) which args.now number at.now)) }
{
    let mode = place.mode;
    if is_constant(mode) {
        if is_constant_at(ground.signature, which, args.len(), number) {
            return Ok(Some(Mode::K));
        }
        return Ok(None);
    }
    if is_demanded(alloc, ground, which, number, at, place)? {
        return Ok(Some(head_mode(mode)));
    }
    if builds_circuit(mode) && is_content(alloc, ground, which, args, number)? {
        return Ok(Some(Mode::K));
    }
    Ok(None)
}
