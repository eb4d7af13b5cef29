//! Bits as numbers, and numbers as bits.
ghost use Rattle.std.specs.Prelude.{◌≡◌, ◌<◌, ◌≤◌, ◌^◌, length, slice_index_or, false};
ghost use Rattle.chw_bits.specs.Bits.{bits_of, number_of};

/// The number that bits mean.
pub(crate) fn number_of_list(bits: &[bool]) -> u128
    requires { length bits.now ≤ 128 }
    ensures number { result ≡ number_of bits.now }
    ensures below { result < 2 ^ length bits.now }
{
    let mut n: u128 = 0;
    for bit in bits {
        n = 2 * n + u128::from(*bit);
    }
    n
}

/// The bit of a number of this width at a place from the most significant, 0.
pub(crate) fn bit_at(width: u32, n: u128, i: u32) -> bool
    requires whole { width ≤ 128 }
    requires within { i < width }
    ensures { result ≡ slice_index_or (bits_of width n) i false }
{
    (n >> (width - 1 - i)) % 2 == 1
}
