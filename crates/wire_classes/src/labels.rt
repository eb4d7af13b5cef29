//! Labels, marks and bits of wires, and the places of cells.
ghost use Rattle.std.specs.Prelude.{◌≡◌, ◌<◌, length, Some, slice_get};
ghost use Rattle.netlist.specs.Feeds.{target_at};
ghost use Rattle.netlist.specs.Sound.{Sound};
ghost use Rattle.wire_classes.specs.Closed.{bits_in, label_of, mark_of};

use chw_bits::Bits;
use netlist::{Cell, Flat};

/// The label of the wire of this number.
pub(crate) fn label(of: &[u32], w: usize) -> u32
    ensures { result ≡ label_of of.now w }
{
    of.get(w).copied().unwrap_or(0)
}

/// Whether the wire of this number is marked.
pub(crate) fn mark(known: &[bool], w: u32) -> bool
    ensures { result ≡ mark_of known.now w }
{
    known.get(w as usize).copied().unwrap_or(false)
}

/// The bits of a wire in a table.
pub(crate) fn bits_at(values: &[Bits], w: u32) -> &Bits
    requires { w < length values.now }
    ensures { result.now ≡ bits_in values.now w }
{
    &values[w as usize]
}

/// The cell at this place.
pub(crate) fn cell_at(flat: &Flat, place: u32) -> &Cell
    requires { place < length flat.now.cells }
    ensures { slice_get flat.now.cells place ≡ Some result.now }
{
    &flat.cells.as_slice()[place as usize]
}

/// The number of the wire that the cell at this place drives.
pub(crate) fn wire_at(flat: &Flat, place: u32) -> u32
    requires sound { Sound flat.now }
    requires within { place < length flat.now.cells }
    ensures { target_at flat.now.cells place ≡ Some result }
{
    let inputs = flat.ports.inputs.len() as u32;
    inputs + place
}
