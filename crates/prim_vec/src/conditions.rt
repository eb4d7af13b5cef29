//! Whether a primitive can be unrolled.
ghost use Rattle.std.specs.Prelude.{◌≡◌, ◌↔◌, ◌&&◌, ◌==◌, map, length, is_some, IsTrue, IfOk};
ghost use Rattle.std.specs.List.{list_all};
ghost use Rattle.chw_prims.specs.Schemas.{schema_type};
ghost use Rattle.chw_terms.specs.Evaluated.{evaluated, numeral};
ghost use Rattle.chw_terms.specs.Unrolled.{CanUnroll, body_of, parameters, at_types, lengths_in, widths_in};
ghost use Rattle.prim_vec.specs.Tests.{can_unroll, shape_of, has_shape, is_up_to};

use crate::sizes::all_evaluated;
use chw_base::NoMemory;
use chw_base::limits::{SCALAR_BITS, VECTOR_LENGTH};
use chw_prims::{Prim, Row, schema};
use chw_terms::{Term, evaluate, numeral};
use chw_types::{Ty, TyNode, put_arguments};
use std::alloc::Global;

/// Whether a primitive at these types and on these arguments can be unrolled: it is a primitive on vectors other than one that takes an
/// element by a number of its type; it has all its type arguments, the naturals among them closed, and all its arguments; each vector
/// in its own type has at most 1,024 elements, and an index at most 128 bits.
pub fn can_unroll(alloc: Global, p: Prim, types: &[Ty], args: &[Term]) -> Result<bool, NoMemory>
    ensures { IfOk result (λ b. IsTrue b ↔ CanUnroll p types.now args.now) }
{
    Ok(passes(alloc, p, types, args)?)
}

// Whether it passes the tests.
fn passes(alloc: Global, p: Prim, types: &[Ty], args: &[Term]) -> Result<bool, NoMemory>
    ensures { IfOk result (λ b. b ≡ can_unroll p types.now args.now) }
{
    if !has_body(alloc, Row::of(p), types)? {
        return Ok(false);
    }
    let ty = schema(alloc, p)?;
    if !takes(&ty, args) {
        return Ok(false);
    }
    Ok(are_within(alloc, &ty, types)?)
}

// Which types a primitive takes: a number and one, two or three others, or two numbers and another.
#[derive(Clone, Copy)]
pub(crate) enum Shape {
    One,
    Two,
    Three,
    Twice,
    Unshaped,
}

fn shape_of(row: Row) -> Shape
    ensures { result ≡ shape_of row }
{
    match row {
        Row::Replicated(_) | Row::Reversed(_) => Shape::One,
        Row::Mapped(_) | Row::FoldedLeft(_) | Row::FoldedRight(_) => Shape::Two,
        Row::Zipped(_) => Shape::Three,
        Row::Generated(_) | Row::Appended(_) | Row::Concatenated(_) => Shape::Twice,
        Row::Taken(_) | Row::Dropped(_) | Row::Rotated(_) => Shape::Twice,
        Row::Replaced | Row::ElementAt => Shape::Twice,
        _ => Shape::Unshaped,
    }
}

// Whether a type is a numeral.
fn is_number(t: &Ty) -> bool
    ensures { result ≡ is_some (numeral t.now) }
{
    numeral(t).is_some()
}

// Whether these types, whose closed naturals are numerals, are so.
fn has_shape(shape: Shape, types: &[Ty]) -> bool
    ensures { result ≡ has_shape shape types.now }
{
    match shape {
        Shape::One => types.len() == 2 && is_number(&types[0]),
        Shape::Two => types.len() == 3 && is_number(&types[0]),
        Shape::Three => types.len() == 4 && is_number(&types[0]),
        Shape::Twice => types.len() == 3 && is_number(&types[0]) && is_number(&types[1]),
        Shape::Unshaped => false,
    }
}

// Whether the primitives of a line have a body at these types.
fn has_body(alloc: Global, row: Row, types: &[Ty]) -> Result<bool, NoMemory>
    ensures { IfOk result (λ b. b ≡ is_some (body_of row (map evaluated types.now))) }
{
    let types = all_evaluated(alloc, types)?;
    Ok(has_shape(shape_of(row), &types))
}

// Whether a function of this type takes as many arguments.
fn takes(ty: &Ty, args: &[Term]) -> bool
    ensures { result ≡ (length args.now == length (parameters ty.now)) }
{
    match &ty.node {
        TyNode::Forall(_, of) => takes(of, args),
        TyNode::Fun(_, to) => match args.split_first() {
            Some((_, more)) => takes(to, more),
            None => false,
        },
        _ => args.is_empty(),
    }
}

/// A part of a primitive's type, with these type arguments.
pub(crate) fn at_types(alloc: Global, t: &Ty, types: &[Ty]) -> Result<Ty, NoMemory>
    ensures { IfOk result (λ put. put ≡ at_types types.now t.now) }
{
    let put = put_arguments(alloc, t, types)?;
    evaluate(alloc, &put)
}

// Whether a part of a primitive's type is a number that is at most this.
fn is_up_to(alloc: Global, t: &Ty, types: &[Ty], most: u32) -> Result<bool, NoMemory>
    ensures { IfOk result (λ b. b ≡ is_up_to most (at_types types.now t.now)) }
{
    let t = at_types(alloc, t, types)?;
    match numeral(&t) {
        Some(n) => Ok(n <= most),
        None => Ok(false),
    }
}

// Whether the vectors in a primitive's type are short enough.
fn are_short(alloc: Global, ty: &Ty, types: &[Ty]) -> Result<bool, NoMemory>
    ensures { IfOk result (λ b. b ≡ list_all (λ n. is_up_to VECTOR_LENGTH (at_types types.now n)) (lengths_in ty.now)) }
{
    match &ty.node {
        TyNode::Forall(_, of) => are_short(alloc, of, types),
        TyNode::Fun(from, to) => {
            Ok(are_short(alloc, from, types)? && are_short(alloc, to, types)?)
        }
        TyNode::Vec(n, of) => {
            Ok(is_up_to(alloc, n, types, VECTOR_LENGTH)? && are_short(alloc, of, types)?)
        }
        _ => Ok(true),
    }
}

// Whether the words in a primitive's type are narrow enough.
fn are_narrow(alloc: Global, ty: &Ty, types: &[Ty]) -> Result<bool, NoMemory>
    ensures { IfOk result (λ b. b ≡ list_all (λ k. is_up_to SCALAR_BITS (at_types types.now k)) (widths_in ty.now)) }
{
    match &ty.node {
        TyNode::Forall(_, of) => are_narrow(alloc, of, types),
        TyNode::Fun(from, to) => {
            Ok(are_narrow(alloc, from, types)? && are_narrow(alloc, to, types)?)
        }
        TyNode::Unsigned(k) | TyNode::Signed(k) | TyNode::BitVector(k) => {
            is_up_to(alloc, k, types, SCALAR_BITS)
        }
        _ => Ok(true),
    }
}

// Whether both are within their limits.
fn are_within(alloc: Global, ty: &Ty, types: &[Ty]) -> Result<bool, NoMemory>
    ensures { IfOk result (λ b. b ≡ (list_all (λ n. is_up_to VECTOR_LENGTH (at_types types.now n)) (lengths_in ty.now) && list_all (λ k. is_up_to SCALAR_BITS (at_types types.now k)) (widths_in ty.now))) }
{
    Ok(are_short(alloc, ty, types)? && are_narrow(alloc, ty, types)?)
}
