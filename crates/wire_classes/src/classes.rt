//! Classes of equal wires.
ghost use Rattle.std.specs.Prelude.{◌≡◌, ◌<◌, false, [], length, slice_index, slice_index_or};

use chw_base::{Seq, WireId};
use chw_bits::Bits;

/// The classes of equal wires of a flat net, and the wires of which bits are known.
#[derive(Debug, Drop)]
pub struct Classes {
    /// The number of each wire's class, by the wires' numbers.
    pub(crate) of: Seq<u32>,
    /// Whether bits of the wire are known.
    pub(crate) known: Seq<bool>,
    /// The known bits, and any for other wires.
    pub(crate) bits: Seq<Bits>,
}

impl Classes {
    /// The number of the wire's class.
    pub fn class(&self, w: WireId) -> u32
        requires { w.number < length self.now.of }
        ensures { result ≡ slice_index self.now.of w.number }
    {
        self.of.as_slice()[w.number as usize]
    }

    /// Whether bits of the wire are known.
    pub fn is_known(&self, w: WireId) -> bool
        requires { w.number < length self.now.known }
        ensures { result ≡ slice_index_or self.now.known w.number false }
    {
        self.known.as_slice()[w.number as usize]
    }

    /// The bits of a wire of which bits are known, and any of another wire.
    pub fn bits(&self, w: WireId) -> &Bits
        requires { w.number < length self.now.bits }
        ensures { result.now ≡ slice_index_or self.now.bits w.number [] }
    {
        &self.bits.as_slice()[w.number as usize]
    }
}
