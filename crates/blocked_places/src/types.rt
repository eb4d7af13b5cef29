//! The types at which a primitive stands, and whether its sizes count there.
ghost use Rattle.std.specs.Prelude.{◌≡◌, ◌↔◌, IfOk, IsTrue, slice_get, Some};
ghost use Rattle.chw_prims.specs.declared.names.TheConstants.{ALL};
ghost use Rattle.chw_prims.specs.Schemas.{schema_type};
ghost use Rattle.chw_terms.specs.declared.program.Program.{Program};
ghost use Rattle.chw_terms.specs.declared.scene.Mode.TheVariants.{K};
ghost use Rattle.rewriting.specs.Spots.{spot_of};
ghost use Rattle.term_frames.specs.Signatures.{IsSignature};
ghost use Rattle.normal_forms.specs.Blocked.{SizesCount};
ghost use Rattle.blocked_places.specs.Limits.{FindsType, FindsTypes};

use chw_base::NoMemory;
use chw_prims::{Prim, Row};
use chw_terms::{Arg, Mode, Place};
use chw_types::{Ty, TyNode};
use std::alloc::Global;
use term_types::Signature;

// Whether a place of this mode is in a constant.
fn is_constant(mode: Mode) -> bool
    ensures { IsTrue result ↔ (mode ≡ K) }
{
    match mode {
        Mode::K => true,
        Mode::V | Mode::C | Mode::HV | Mode::HC => false,
    }
}

/// Whether the sizes of a primitive count at a place.
pub(crate) fn sizes_count(place: &Place, which: Prim) -> bool
    ensures { IsTrue result ↔ SizesCount (spot_of place.now) which }
{
    match Row::of(which) {
        Row::Mapping | Row::Applying | Row::Constant => false,
        Row::Delay | Row::Memory | Row::Crossing => false,
        Row::Binary(_) | Row::WideSum(_) | Row::WideProduct(_) | Row::Unary(_) => {
            is_constant(place.mode)
        }
        Row::Shift(_) | Row::Compare(_) | Row::Extend(_) | Row::Truncate(_) => {
            is_constant(place.mode)
        }
        Row::Cut | Row::Joined | Row::Reduce | Row::Packed(_) | Row::Unpacked(_) => {
            is_constant(place.mode)
        }
        _ => true,
    }
}

// The place of a primitive among all of them.
fn place_in_all(which: Prim) -> usize
    ensures { slice_get ALL result ≡ Some which }
{
    which as usize
}

/// The type of a primitive.
pub(crate) fn schema_of<'s>(signature: &'s Signature, which: Prim) -> &'s Ty
    requires { (p : Program) × IsSignature p signature.now }
    ensures { result.now ≡ schema_type which }
{
    let Some(it) = signature.primitives.as_slice().get(place_in_all(which)) else {
        unreachable!()
    };
    &it.ty
}

/// The type that is the argument of this number.
pub(crate) fn type_at(args: &[Arg], number: usize) -> Option<&Ty>
    ensures { FindsType args.now number result }
{
    match args.get(number) {
        Some(Arg::OfType(ty)) => Some(ty),
        Some(Arg::OfTerm(_)) => None,
        None => None,
    }
}

/// The types that a primitive's type asks for, where all of them are given.
pub(crate) fn types_given(
    alloc: Global,
    schema: &Ty,
    args: &[Arg],
) -> Result<Option<Vec<Ty>>, NoMemory>
    ensures { IfOk result (FindsTypes schema.now args.now) }
{
    let mut types = Vec::new(alloc);
    let mut rest = schema;
    while let TyNode::Forall(_, to) = &rest.node {
        let Some(ty) = type_at(args, types.len()) else {
            return Ok(None);
        };
        types.push(ty.copy(alloc)?)?;
        rest = to;
    }
    Ok(Some(types))
}
