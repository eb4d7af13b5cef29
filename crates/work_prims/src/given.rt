//! The arguments of primitives, read as types and terms.
ghost use Rattle.std.specs.Prelude.{◌≡◌, ◌≤◌, ℕ, Bool, List, length, drop, IfOk, IfSome, IfNone};
ghost use Rattle.chw_types.specs.declared.kind.Scalar.{Scalar as Sort};
ghost use Rattle.chw_types.specs.TypeTree.{nat_lit};
ghost use Rattle.chw_prims.specs.Schemas.{row_type};
ghost use Rattle.rewriting.specs.Spots.{asked_for};
ghost use Rattle.chw_terms.specs.Evaluated.{evaluated};
ghost use Rattle.chw_terms.specs.TermTree.{TermTree, lit};
ghost use Rattle.work_prims.specs.Given.{types_in, as_args};

use chw_base::NoMemory;
use chw_bits::Bits;
use chw_prims::Row;
use chw_terms::{Arg, Head, Scalar, Term, evaluate, numeral};
use chw_types::Ty;
use std::alloc::Global;

/// How many types and terms a line's type asks for.
pub(crate) fn asked(row: Row) -> usize
    ensures { result ≡ asked_for (row_type row) }
{
    match row {
        Row::Unary(_) | Row::Reduce | Row::Packed(_) | Row::Unpacked(_) => 2,
        Row::Binary(_) | Row::WideSum(_) | Row::Compare(_) | Row::Extend(_) => 3,
        Row::Truncate(_) | Row::Constant | Row::Replicated(_) | Row::Reversed(_) => 3,
        Row::WideProduct(_) | Row::Shift(_) | Row::Cut | Row::Joined | Row::Delay => 4,
        Row::Crossing | Row::Element(_) | Row::Generated(_) | Row::Concatenated(_) => 4,
        Row::Taken(_) | Row::Dropped(_) | Row::Rotated(_) => 4,
        Row::Mapping | Row::Applying | Row::ElementAt | Row::Mapped(_) | Row::Appended(_) => 5,
        Row::Replaced | Row::FoldedLeft(_) | Row::FoldedRight(_) => 6,
        Row::Memory | Row::Zipped(_) => 7,
    }
}

/// The number that a closed natural is.
pub(crate) fn closed(alloc: Global, ty: &Ty) -> Result<Option<u32>, NoMemory>
    ensures some { IfOk result (λ r. IfSome r (λ n. evaluated ty.now ≡ nat_lit n)) }
    ensures none { IfOk result (λ r. IfNone r ((n : ℕ) → evaluated ty.now ≡ nat_lit n → ⊥)) }
{
    let ty = evaluate(alloc, ty)?;
    Ok(numeral(&ty))
}

/// The sort and the bits of a literal.
pub(crate) fn literal_of(e: &Term) -> Option<(Scalar, &Bits)>
    ensures some { IfSome result (λ w. e.now ≡ lit w.0 w.1.now) }
    ensures none { IfNone result ((x : Sort) (bits : List Bool) → e.now ≡ lit x bits → ⊥) }
{
    let Head::Lit(sort, bits) = &e.head else {
        return None;
    };
    if e.args.is_empty() {
        Some((*sort, bits))
    } else {
        None
    }
}

// The types before the first term.
fn leading_types(alloc: Global, args: &[Arg]) -> Result<Vec<Ty>, NoMemory>
    ensures types { IfOk result (λ ts. ts.items ≡ types_in args.now) }
    ensures within { IfOk result (λ ts. length ts.items ≤ length args.now) }
{
    let mut types = Vec::new(alloc);
    for arg in args {
        let Arg::OfType(ty) = arg else {
            return Ok(types);
        };
        types.push(ty.copy(alloc)?)?;
    }
    Ok(types)
}

/// The types before the first term, and what stands behind them.
pub(crate) fn split_types(alloc: Global, args: &[Arg]) -> Result<(Vec<Ty>, &[Arg]), NoMemory>
    ensures { IfOk result (λ s. (s.0.items ≡ types_in args.now) × (s.1.now ≡ drop (length (types_in args.now)) args.now)) }
{
    let types = leading_types(alloc, args)?;
    let rest = &args[types.len()..];
    Ok((types, rest))
}

/// Copies of the terms that these arguments are, where none is a type.
pub(crate) fn copy_terms(alloc: Global, args: &[Arg]) -> Result<Option<Vec<Term>>, NoMemory>
    ensures some { IfOk result (λ r. IfSome r (λ es. args.now ≡ as_args es.items)) }
    ensures none { IfOk result (λ r. IfNone r ((es : List TermTree) → args.now ≡ as_args es → ⊥)) }
{
    let mut terms = Vec::new(alloc);
    for arg in args {
        let Arg::OfTerm(e) = arg else {
            return Ok(None);
        };
        terms.push(e.copy(alloc)?)?;
    }
    Ok(Some(terms))
}
