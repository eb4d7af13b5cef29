//! All bits of a word as one.
ghost use Rattle.std.specs.Prelude.{◌≡◌, ◌≤◌, ◌%◌, ◌==◌, length, count_by};
ghost use Rattle.std.specs.List.{list_all, list_any};

use crate::words::number;
use chw_bits::{Bits, machine};

/// Whether all bits are set.
pub(crate) fn all_set(a: &Bits) -> bool
    requires { length a.now ≤ 128 }
    ensures { result ≡ list_all (λ bit. bit) a.now }
{
    machine::all_set(a.len(), number(a))
}

/// Whether a bit is set.
pub(crate) fn any_set(a: &Bits) -> bool
    requires { length a.now ≤ 128 }
    ensures { result ≡ list_any (λ bit. bit) a.now }
{
    machine::any_set(number(a))
}

/// Whether the number of bits that are set is odd.
pub(crate) fn odd_set(a: &Bits) -> bool
    requires { length a.now ≤ 128 }
    ensures { result ≡ (count_by (λ bit. bit) a.now % 2 == 1) }
{
    machine::odd_set(number(a))
}
