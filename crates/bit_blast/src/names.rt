//! Words of bits by the places of their bits, and the widths of wires.
ghost use Rattle.std.specs.Prelude.{◌≡◌, ◌<◌, ◌≤◌, ◌^◌, slice_index};
ghost use Rattle.chw_base.specs.declared.limits.TheConstants.{WIRE_BITS};
ghost use Rattle.netlist.specs.Sound.{IsWire, Sound};
ghost use Rattle.bit_blast.specs.Names.{bit_of, end_of};

use bit_nodes::BitName;
use chw_base::WireId;
use netlist::Flat;

/// Bits side by side, whose names follow from their places, the least significant place 0.
#[derive(Clone, Copy, Debug)]
pub(crate) enum Word {
    /// Those of a wire from this place on.
    Part(WireId, u32),
    /// Those of the output of this number.
    Port(u32),
    /// Further nodes of the cell that drives the wire, from this number on.
    Furthers(WireId, u32),
}

impl Word {
    /// The name of the bit at this place.
    pub(crate) fn at(self, place: u32) -> BitName
        requires { end_of self place < 2 ^ 32 }
        ensures { result ≡ bit_of self place }
    {
        match self {
            Word::Part(wire, low) => BitName::Bit {
                wire,
                place: low + place,
            },
            Word::Port(port) => BitName::Output { port, place },
            Word::Furthers(wire, first) => BitName::Further {
                wire,
                number: first + place,
            },
        }
    }
}

// The width at this place of a list, and 0 where there is none.
fn width_at(widths: &[u32], w: usize) -> u32
    ensures { result ≡ slice_index widths.now w }
{
    widths.get(w).copied().unwrap_or(0)
}

/// The width of a wire.
pub(crate) fn width_of(flat: &Flat, wire: WireId) -> u32
    requires { Sound flat.now }
    ensures width { result ≡ slice_index flat.now.widths wire.number }
    ensures within { result ≤ WIRE_BITS }
    ensures some { IsWire flat.now.widths wire → 1 ≤ result }
{
    width_at(flat.widths.as_slice(), wire.number as usize)
}
