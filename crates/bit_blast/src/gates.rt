//! Gates of one bit and of two, and those on what is folded so far.
ghost use Rattle.std.specs.Prelude.{◌≡◌};
ghost use Rattle.bit_blast.specs.Gating.{constant_gate, folding, with_one, with_two};

use bit_nodes::{BitGate, BitName};
use chw_base::WireId;

/// A gate that reads one bit.
#[derive(Clone, Copy, Debug)]
pub(crate) enum OneBit {
    Same,
    Opposite,
}

/// A gate that reads two bits.
#[derive(Clone, Copy, Debug)]
pub(crate) enum TwoBits {
    And,
    Or,
    Xor,
}

impl OneBit {
    /// The gate on this bit.
    pub(crate) fn on(self, a: BitName) -> BitGate
        ensures { result ≡ with_one self a }
    {
        match self {
            OneBit::Same => BitGate::Buffer(a),
            OneBit::Opposite => BitGate::Inverse(a),
        }
    }
}

impl TwoBits {
    /// The gate on these bits.
    pub(crate) fn on(self, a: BitName, b: BitName) -> BitGate
        ensures { result ≡ with_two self a b }
    {
        match self {
            TwoBits::And => BitGate::Both(a, b),
            TwoBits::Or => BitGate::Either(a, b),
            TwoBits::Xor => BitGate::Differing(a, b),
        }
    }
}

/// The gate of a constant bit.
pub(crate) fn constant_gate(bit: bool) -> BitGate
    ensures { result ≡ constant_gate bit }
{
    if bit { BitGate::Always } else { BitGate::Never }
}

/// The gate on what is folded below a place of wire a, and the bit there. The further nodes are of
/// wire w.
pub(crate) fn folding(gate: TwoBits, w: WireId, a: WireId, place: u32) -> BitGate
    ensures { result ≡ folding gate w a place }
{
    let bit = BitName::Bit { wire: a, place };
    if place == 0 {
        return BitGate::Buffer(bit);
    }
    let folded = BitName::Further {
        wire: w,
        number: place - 1,
    };
    gate.on(folded, bit)
}
