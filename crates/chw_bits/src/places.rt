//! The places of a number's bits.
ghost use Rattle.std.specs.Prelude.{◌≡◌, ◌<◌, ◌/◌, ◌^◌, ◌%◌, ◌↔◌, IsTrue};
ghost use Rattle.chw_bits.specs.Bits.{bit_of};

/// Whether a number has no bit above this width.
pub fn fits(n: u128, width: u32) -> bool
    ensures { IsTrue result ↔ n < 2 ^ width }
{
    width >= 128 || n >> width == 0
}

/// Whether the bit of this place is set, the least significant place 0.
pub fn bit_at(n: u128, place: u32) -> bool
    ensures { result ≡ bit_of place n }
{
    place < 128 && (n >> place) % 2 == 1
}
