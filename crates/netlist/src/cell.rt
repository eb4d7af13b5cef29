//! What a cell drives, and what it waits for within one event.
ghost use Rattle.std.specs.Prelude.{◌≡◌, length, slice_get};
ghost use Rattle.netlist.specs.Feeds.{awaited};
ghost use Rattle.netlist.specs.Wires.{driven};

use crate::net::Cell;
use chw_base::WireId;
use std::slice;

// The wire at this place of a list.
fn wire_at(wires: &[WireId], k: usize) -> Option<WireId>
    ensures { result ≡ slice_get wires.now k }
{
    wires.get(k).copied()
}

impl Cell {
    /// The wires that the cell drives: one, and for a use one for each output of the used module.
    pub fn driven(&self) -> &[WireId]
        ensures { result.now ≡ driven self.now }
    {
        match self {
            Cell::Const(w, ..)
            | Cell::Copy(w, ..)
            | Cell::Join(w, ..)
            | Cell::Cut(w, ..)
            | Cell::Un(w, ..)
            | Cell::Bin(w, ..)
            | Cell::Mux(w, ..)
            | Cell::Reg(w, ..)
            | Cell::Ram(w, ..) => slice::from_ref(w),
            Cell::Use(_, _, drives) => drives.as_slice(),
        }
    }

    /// How many wires the cell waits for in an event: as many as it reads, and none where it is a register or RAM.
    pub fn awaited_len(&self) -> usize
        ensures { result ≡ length (awaited self.now) }
    {
        match self {
            Cell::Const(_, _) | Cell::Reg(_, _, _, _) | Cell::Ram(_, _, _, _) => 0,
            Cell::Copy(_, _) | Cell::Cut(_, _, _, _) | Cell::Un(_, _, _) => 1,
            Cell::Bin(_, _, _, _) => 2,
            Cell::Mux(_, _, _, _) => 3,
            Cell::Join(_, parts) => parts.len(),
            Cell::Use(_, reads, _) => reads.len(),
        }
    }

    /// One of the wires that the cell waits for in an event, in the order in which it reads them.
    pub fn awaited(&self, k: usize) -> Option<WireId>
        ensures { result ≡ slice_get (awaited self.now) k }
    {
        match self {
            Cell::Const(_, _) | Cell::Reg(_, _, _, _) | Cell::Ram(_, _, _, _) => None,
            Cell::Copy(_, a) | Cell::Cut(_, a, _, _) | Cell::Un(_, _, a) => wire_at(&[*a], k),
            Cell::Bin(_, _, a, b) => wire_at(&[*a, *b], k),
            Cell::Mux(_, c, a, b) => wire_at(&[*c, *a, *b], k),
            Cell::Join(_, parts) => wire_at(parts.as_slice(), k),
            Cell::Use(_, reads, _) => wire_at(reads.as_slice(), k),
        }
    }
}
