//! Comparisons of words as integers.
ghost use Rattle.std.specs.Prelude.{◌≡◌, ◌≤◌, length, int_lt};
ghost use Rattle.std.specs.Ordering.{int_eq};
ghost use Rattle.prim_bits.specs.Words.{integer_of};

use crate::words::{number, signed_number};
use chw_bits::Bits;
use chw_types::Scalar;

/// Whether two words mean one integer.
pub(crate) fn equal(x: Scalar, a: &Bits, b: &Bits) -> bool
    requires left { length a.now ≤ 128 }
    requires right { length b.now ≤ 128 }
    ensures { result ≡ int_eq (integer_of x a.now) (integer_of x b.now) }
{
    match x {
        Scalar::U | Scalar::B => number(a) == number(b),
        Scalar::S => signed_number(a) == signed_number(b),
    }
}

/// Whether a word means a smaller integer than another.
pub(crate) fn less(x: Scalar, a: &Bits, b: &Bits) -> bool
    requires left { length a.now ≤ 128 }
    requires right { length b.now ≤ 128 }
    ensures { result ≡ int_lt (integer_of x a.now) (integer_of x b.now) }
{
    match x {
        Scalar::U | Scalar::B => number(a) < number(b),
        Scalar::S => signed_number(a) < signed_number(b),
    }
}
