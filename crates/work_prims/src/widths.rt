//! Whether words have the widths that a primitive takes.
ghost use Rattle.std.specs.Prelude.{◌≡◌, ◌≤◌, ◌<◌, ◌^◌, ◌↔◌, [], ◌∷◌, map, length, slice_index, IsTrue, Some};
ghost use Rattle.std.specs.Bool.{Decides};
ghost use Rattle.std.specs.List.{AllByRecursion};
ghost use Rattle.prim_bits.specs.Widths.{argument_widths, width_of, TakesNumbers};

use chw_base::limits::SCALAR_BITS;
use chw_bits::Bits;
use chw_prims::{Prim, Row};
use prim_bits::width_at;

// Whether there is one word, of this width.
fn is_one(words: &[Bits], width: u64) -> bool
    ensures { IsTrue result ↔ (width ∷ [] ≡ map length words.now) }
{
    match words {
        [word] => u64::from(word.len()) == width,
        _ => false,
    }
}

// Whether there are two words, of these widths.
fn are_two(words: &[Bits], first: u64, second: u64) -> bool
    ensures { IsTrue result ↔ (first ∷ second ∷ [] ≡ map length words.now) }
{
    match words {
        [a, b] => u64::from(a.len()) == first && u64::from(b.len()) == second,
        _ => false,
    }
}

// Whether a line takes words of these widths at its natural arguments.
fn takes(row: Row, nats: &[u32], words: &[Bits]) -> bool
    ensures { IsTrue result ↔ (argument_widths row nats.now ≡ Some (map length words.now)) }
{
    match nats {
        [n] => takes_at_one(row, u64::from(*n), words),
        [n, m] => takes_at_two(row, u64::from(*n), u64::from(*m), words),
        [l, n, u] if row == Row::Cut => is_one(
            words,
            u64::from(*u) + u64::from(*n) + u64::from(*l),
        ),
        _ => false,
    }
}

// The same at one natural argument.
fn takes_at_one(row: Row, n: u64, words: &[Bits]) -> bool
    ensures { IsTrue result ↔ (argument_widths row (n ∷ []) ≡ Some (map length words.now)) }
{
    match row {
        Row::Binary(_) | Row::WideSum(_) | Row::Compare(_) => are_two(words, n, n),
        Row::Unary(_) | Row::Reduce | Row::Packed(_) | Row::Unpacked(_) => is_one(words, n),
        _ => false,
    }
}

// The same at two.
fn takes_at_two(row: Row, n: u64, m: u64, words: &[Bits]) -> bool
    requires first { n < 2 ^ 32 }
    requires second { m < 2 ^ 32 }
    ensures { IsTrue result ↔ (argument_widths row (n ∷ m ∷ []) ≡ Some (map length words.now)) }
{
    match row {
        Row::WideProduct(_) | Row::Shift(_) | Row::Joined => are_two(words, n, m),
        Row::Extend(_) => is_one(words, n),
        Row::Truncate(_) => is_one(words, n + m),
        _ => false,
    }
}

// Whether no word is wider than scalars may be.
fn are_narrow(words: &[Bits]) -> bool
    ensures { Decides result (AllByRecursion (λ word. length word ≤ 128) words.now) }
{
    words.iter().all(|word| word.len() <= SCALAR_BITS)
}

/// Whether a primitive takes words of these widths at its natural arguments, and none of them or of its result is wider than scalars
/// may be.
pub(crate) fn takes_numbers(p: Prim, nats: &[u32], words: &[Bits]) -> bool
    ensures { IsTrue result ↔ TakesNumbers p nats.now (map length words.now) }
{
    if !takes(Row::of(p), nats, words) {
        return false;
    }
    if !are_narrow(words) {
        return false;
    }
    is_narrow(p, nats)
}

// Whether its result is no wider than scalars may be.
fn is_narrow(p: Prim, nats: &[u32]) -> bool
    ensures { IsTrue result ↔ (width_of p nats.now ≤ 128) }
{
    width_at(p, nat_at(nats, 0), nat_at(nats, 1)) <= u64::from(SCALAR_BITS)
}

// A natural argument, 0 where there is none.
fn nat_at(nats: &[u32], i: usize) -> u32
    ensures { result ≡ slice_index nats.now i }
{
    if i < nats.len() { nats[i] } else { 0 }
}
