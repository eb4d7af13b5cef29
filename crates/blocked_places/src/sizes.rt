//! Sizes in the types of primitives that pass their limits.
ghost use Rattle.std.specs.Prelude.{◌≡◌, ℕ, IfOk, IfSome, IfNone};
ghost use Rattle.chw_types.specs.TypeTree.{nat_lit};
ghost use Rattle.chw_terms.specs.Unrolled.{at_types};
ghost use Rattle.normal_forms.specs.Blocked.{Size, of_vector, of_word, sizes_in, IsOver};
ghost use Rattle.blocked_places.specs.Firsts.{FindsOf, FindsFirstOf};

use chw_base::NoMemory;
use chw_base::limits::{SCALAR_BITS, VECTOR_LENGTH};
use chw_layout::NoLayout;
use chw_terms::{evaluate, numeral};
use chw_types::{Ty, TyNode, put_arguments};
use std::alloc::Global;

// The number that a part of a primitive's type is at these types.
fn number_at(alloc: Global, part: &Ty, types: &[Ty]) -> Result<Option<u32>, NoMemory>
    ensures some { IfOk result (λ r. IfSome r (λ n. at_types types.now part.now ≡ nat_lit n)) }
    ensures none { IfOk result (λ r. IfNone r ((n : ℕ) → at_types types.now part.now ≡ nat_lit n → ⊥)) }
{
    let put = put_arguments(alloc, part, types)?;
    let put = evaluate(alloc, &put)?;
    Ok(numeral(&put))
}

// The limit that the length of a vector passes.
fn too_long(alloc: Global, part: &Ty, types: &[Ty]) -> Result<Option<NoLayout>, NoMemory>
    ensures { IfOk result (FindsOf Size (IsOver types.now) (of_vector part.now)) }
{
    let Some(number) = number_at(alloc, part, types)? else {
        return Ok(None);
    };
    if number <= VECTOR_LENGTH {
        return Ok(None);
    }
    Ok(Some(NoLayout::Length(number)))
}

// The limit that the width of a word passes.
fn too_wide(alloc: Global, part: &Ty, types: &[Ty]) -> Result<Option<NoLayout>, NoMemory>
    ensures { IfOk result (FindsOf Size (IsOver types.now) (of_word part.now)) }
{
    let Some(number) = number_at(alloc, part, types)? else {
        return Ok(None);
    };
    if number <= SCALAR_BITS {
        return Ok(None);
    }
    Ok(Some(NoLayout::Scalar(number)))
}

/// The limit of the first size in a primitive's type that passes one at these types.
pub(crate) fn first_size(alloc: Global, ty: &Ty, types: &[Ty]) -> Result<Option<NoLayout>, NoMemory>
    ensures { IfOk result (FindsFirstOf Size (IsOver types.now) (sizes_in ty.now)) }
{
    match &ty.node {
        TyNode::Forall(_, of) => first_size(alloc, of, types),
        TyNode::Fun(from, to) => {
            let first = first_size(alloc, from, types)?;
            if first.is_some() {
                return Ok(first);
            }
            first_size(alloc, to, types)
        }
        TyNode::Vec(n, of) => {
            let first = too_long(alloc, n, types)?;
            if first.is_some() {
                return Ok(first);
            }
            first_size(alloc, of, types)
        }
        TyNode::Unsigned(k) | TyNode::Signed(k) | TyNode::BitVector(k) => too_wide(alloc, k, types),
        _ => Ok(None),
    }
}
