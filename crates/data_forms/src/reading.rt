//! Lists of bits.
ghost use Rattle.std.specs.Prelude.{◌≡◌, ◌≤◌, ◌↔◌, false, length, drop, replicate, IsTrue};
ghost use Rattle.chw_bits.specs.Bits.{number_of};

/// The bits after so many.
pub(crate) fn after(bits: &[bool], count: usize) -> &[bool]
    requires { count ≤ length bits.now }
    ensures { result.now ≡ drop count bits.now }
{
    &bits[count..]
}

/// Whether no bit is set.
pub(crate) fn all_zero(bits: &[bool]) -> bool
    ensures { IsTrue result ↔ (bits.now ≡ replicate (length bits.now) false) }
{
    for bit in bits {
        if *bit {
            return false;
        }
    }
    true
}

/// The number that bits mean.
pub(crate) fn number(bits: &[bool]) -> usize
    requires { length bits.now ≤ 64 }
    ensures { result ≡ number_of bits.now }
{
    let mut n: usize = 0;
    for bit in bits {
        n = 2 * n + usize::from(*bit);
    }
    n
}
