//! Values that Python's integers made: for each primitive on words, at the widths 0, 1, 4, 8, 64, 65, 127 and 128, words with the
//! first bit alone, all bits or bits by chance.
use chw_bits::Bits;
use chw_prims::Prim;
use prim_bits::{result_at, width_at};
use std::alloc::Global;
use std::process::Abort;

mod arithmetic;
mod bitwise;
mod comparisons;
mod reductions;
mod reshaping;
mod shifts;

/// A primitive, its first two natural arguments, its words and its result, each with its width; 0 and no bits where there are fewer.
type Case = (Prim, u32, u32, (u32, u128), (u32, u128), (u32, u128));

fn matches(rt: &impl Abort, alloc: Global, cases: &[Case]) {
    for (i, (p, n, m, a, b, wanted)) in cases.iter().enumerate() {
        let a = Bits::of_number(alloc, a.0, a.1).expect(rt, "bits");
        let b = Bits::of_number(alloc, b.0, b.1).expect(rt, "bits");
        let wanted = Bits::of_number(alloc, wanted.0, wanted.1).expect(rt, "bits");
        assert!(rt; a.len() <= 128 && b.len() <= 128);
        assert!(rt; width_at(*p, *n, *m) <= 128);
        let found = result_at(alloc, *p, *n, *m, &a, &b).expect(rt, "a value");
        assert!(rt; found == wanted, "at {i}");
    }
}

#[test]
fn table_of_arithmetic(rt: HostRuntime) {
    matches(&rt, rt.alloc(), arithmetic::CASES);
}

#[test]
fn table_of_words_bit_by_bit(rt: HostRuntime) {
    matches(&rt, rt.alloc(), bitwise::CASES);
}

#[test]
fn table_of_shifts(rt: HostRuntime) {
    matches(&rt, rt.alloc(), shifts::CASES);
}

#[test]
fn table_of_comparisons(rt: HostRuntime) {
    matches(&rt, rt.alloc(), comparisons::CASES);
}

#[test]
fn table_of_reshaping(rt: HostRuntime) {
    matches(&rt, rt.alloc(), reshaping::CASES);
}

#[test]
fn table_of_reductions(rt: HostRuntime) {
    matches(&rt, rt.alloc(), reductions::CASES);
}
