//! Values worked by hand.
use chw_bits::Bits;
use chw_prims::Prim;
use prim_bits::apply;

/// The sum of ff and ff in nine bits is 1fe.
#[test]
fn exact_sum(rt: HostRuntime) {
    let a = Bits::of_number(rt.alloc(), 8, 0xff).expect(&rt, "eight bits");
    let b = Bits::of_number(rt.alloc(), 8, 0xff).expect(&rt, "eight bits");
    assert!(rt; a.len() == 8 && b.len() == 8);
    let sum = apply(rt.alloc(), Prim::XaddU, &[8], &[a, b]).expect(&rt, "nine bits");
    assert_eq!(rt; sum.len(), 9);
    assert_eq!(rt; sum.number(), Some(0x1fe));
}

/// Minus 3 times 7 is minus 21, of which four bits are b.
#[test]
fn signed_product(rt: HostRuntime) {
    let a = Bits::of_number(rt.alloc(), 4, 0xd).expect(&rt, "four bits");
    let b = Bits::of_number(rt.alloc(), 4, 7).expect(&rt, "four bits");
    assert!(rt; a.len() == 4 && b.len() == 4);
    let product = apply(rt.alloc(), Prim::MulS, &[4], &[a, b]).expect(&rt, "four bits");
    assert_eq!(rt; product.number(), Some(0xb));
}

/// Minus 3 moved down by one place is minus 2.
#[test]
fn signed_shift(rt: HostRuntime) {
    let a = Bits::of_number(rt.alloc(), 4, 0xd).expect(&rt, "four bits");
    let b = Bits::of_number(rt.alloc(), 2, 1).expect(&rt, "two bits");
    assert!(rt; a.len() == 4 && b.len() == 2);
    let moved = apply(rt.alloc(), Prim::ShrS, &[4, 2], &[a, b]).expect(&rt, "four bits");
    assert_eq!(rt; moved.number(), Some(0xe));
}

/// 1010 010 1 has 010 above its lowest bit.
#[test]
fn bits_in_the_middle(rt: HostRuntime) {
    let a = Bits::of_number(rt.alloc(), 8, 0xa5).expect(&rt, "eight bits");
    assert!(rt; a.len() == 8);
    let slice = apply(rt.alloc(), Prim::Slice, &[1, 3, 4], &[a]).expect(&rt, "three bits");
    assert_eq!(rt; slice.len(), 3);
    assert_eq!(rt; slice.number(), Some(2));
}

/// No bits mean 0, and have no sign.
#[test]
fn no_bits_extended(rt: HostRuntime) {
    let a = Bits::of_number(rt.alloc(), 0, 0).expect(&rt, "no bits");
    assert!(rt; a.len() == 0);
    let wide = apply(rt.alloc(), Prim::ExtS, &[0, 4], &[a]).expect(&rt, "four bits");
    assert_eq!(rt; wide.len(), 4);
    assert_eq!(rt; wide.number(), Some(0));
}
