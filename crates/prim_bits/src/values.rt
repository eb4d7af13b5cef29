//! The value of a primitive on words.
ghost use Rattle.std.specs.Prelude.{◌≡◌, ◌≤◌, length, map, slice_index, slice_index_or, IfOk, Some};
ghost use Rattle.chw_prims.specs.Schemas.{row_of};
ghost use Rattle.prim_bits.specs.Values.{result_of, value_of};
ghost use Rattle.prim_bits.specs.Widths.{TakesNumbers, result_width};

use crate::arithmetic::{difference, product, sum};
use crate::bitwise::{both, differing, either, flipped};
use crate::comparisons::{equal, less};
use crate::reductions::{all_set, any_set, odd_set};
use crate::reshaping::{extended, middle};
use crate::shifts::{lowered, raised};
use crate::words::one;
use chw_base::NoMemory;
use chw_bits::Bits;
use chw_prims::Prim;
use chw_types::Scalar::{B, S, U};
use std::alloc::Global;

/// The bits that a primitive on words gives at its natural arguments, on words of the widths that it takes. A truth value is one bit.
pub fn apply(alloc: Global, p: Prim, nats: &[u32], args: &[Bits]) -> Result<Bits, NoMemory>
    requires { TakesNumbers p nats.now (map length args.now) }
    ensures { IfOk result (λ r. value_of p nats.now args.now ≡ Some r) }
{
    let none = Bits::of_list(Vec::new(alloc));
    result_at(
        alloc,
        p,
        nat_at(nats, 0),
        nat_at(nats, 1),
        word_at(args, 0, &none),
        word_at(args, 1, &none),
    )
}

// A natural argument, 0 where there is none.
fn nat_at(nats: &[u32], i: usize) -> u32
    ensures { result ≡ slice_index nats.now i }
{
    if i < nats.len() { nats[i] } else { 0 }
}

// A word, another where there is none.
fn word_at<'a>(args: &'a [Bits], i: usize, none: &'a Bits) -> &'a Bits
    ensures { result.now ≡ slice_index_or args.now i none.now }
{
    if i < args.len() { &args[i] } else { none }
}

/// The bits that a primitive on words gives at its first two natural arguments and its words: 0 and no bits where it has fewer.
///
/// It is `apply` where the words needn't stand in one slice.
pub fn result_at(
    alloc: Global,
    p: Prim,
    n: u32,
    m: u32,
    a: &Bits,
    b: &Bits,
) -> Result<Bits, NoMemory>
    requires left { length a.now ≤ 128 }
    requires right { length b.now ≤ 128 }
    requires whole { result_width (row_of p) n m ≤ 128 }
    ensures { IfOk result (λ r. r ≡ result_of p n m a.now b.now) }
{
    match p {
        Prim::AddU => sum(alloc, U, n, a, b),
        Prim::AddS => sum(alloc, S, n, a, b),
        Prim::SubU => difference(alloc, U, n, a, b),
        Prim::SubS => difference(alloc, S, n, a, b),
        Prim::MulU => product(alloc, U, n, a, b),
        Prim::MulS => product(alloc, S, n, a, b),
        Prim::XaddU => sum(alloc, U, n + 1, a, b),
        Prim::XaddS => sum(alloc, S, n + 1, a, b),
        Prim::XmulU => product(alloc, U, n + m, a, b),
        Prim::XmulS => product(alloc, S, n + m, a, b),
        Prim::AndU | Prim::AndS | Prim::AndB => both(alloc, a, b),
        Prim::OrU | Prim::OrS | Prim::OrB => either(alloc, a, b),
        Prim::XorU | Prim::XorS | Prim::XorB => differing(alloc, a, b),
        Prim::NotU | Prim::NotS | Prim::NotB => flipped(alloc, a),
        Prim::ShlU | Prim::ShlB => raised(alloc, U, n, a, b),
        Prim::ShlS => raised(alloc, S, n, a, b),
        Prim::ShrU | Prim::ShrB => lowered(alloc, U, n, a, b),
        Prim::ShrS => lowered(alloc, S, n, a, b),
        Prim::EqU | Prim::EqB => one(alloc, equal(U, a, b)),
        Prim::EqS => one(alloc, equal(S, a, b)),
        Prim::LtU => one(alloc, less(U, a, b)),
        Prim::LtS => one(alloc, less(S, a, b)),
        Prim::ExtU | Prim::ExtB => extended(alloc, U, n + m, a),
        Prim::ExtS => extended(alloc, S, n + m, a),
        Prim::TruncU | Prim::TruncS | Prim::TruncB => middle(alloc, 0, n, a),
        Prim::Slice => middle(alloc, n, m, a),
        Prim::Join => a.join(alloc, b),
        Prim::RedAnd => one(alloc, all_set(a)),
        Prim::RedOr => one(alloc, any_set(a)),
        Prim::RedXor => one(alloc, odd_set(a)),
        Prim::PackU | Prim::PackS | Prim::UnpackU | Prim::UnpackS => a.copy(alloc),
        _ => Ok(Bits::of_list(Vec::new(alloc))),
    }
}
