//! The wires and cells of a module so far.
ghost use Rattle.std.specs.Prelude.{◌≡◌, ◌<◌, ◌-◌, ◌^◌, ◌∷◌, [], length, IfOk, OnOk};
ghost use Rattle.net_built.specs.Wires.{wire, present, one, ◌▸◌};

use chw_base::{NoMemory, Seq, WireId, narrow};
use netlist::Cell;
use std::alloc::Global;
use std::marker::Model;

/// The widths of the wires of a module so far, its inputs first, and its cells. Contracts see a piece whose wires are numbered from 0.
///
/// A call that appends to it appends a part of its piece, where memory is wanting. A number past 32 bits is want of memory.
#[derive(Debug, Drop)]
pub struct Pieces {
    widths: Vec<u32>,
    cells: Vec<Cell>,
}

impl Model for Pieces {
    ghost use Rattle.std.specs.Prelude.{length, ◌<◌, ◌^◌};
    ghost use Rattle.net_built.specs.Wires.{Piece};

    ghost Value = { Piece };

    ghost view = { λ p. record { widths = p.widths.items; cells = p.cells.items } };

    ghost invariant = { λ p. length p.widths.items < 2 ^ 32 };
}

impl Pieces {
    /// A module with inputs of these widths, and no cell.
    pub fn new(alloc: Global, inputs: &[u32]) -> Result<Pieces, NoMemory>
        ensures { IfOk result (λ p. p ≡ record { widths = inputs.now; cells = [] }) }
    {
        let _number = narrow(inputs.len())?;
        let widths = Vec::from_slice(alloc, inputs)?;
        Ok(Pieces {
            widths,
            cells: Vec::new(alloc),
        })
    }

    /// The number of the next wire.
    pub fn next(&self) -> u32
        ensures { result ≡ length self.now.widths }
    {
        self.widths.len() as u32
    }

    /// The next wire.
    pub fn next_wire(&self) -> WireId
        ensures { result ≡ wire (length self.now.widths) }
    {
        WireId {
            number: self.next(),
        }
    }

    /// The last wire.
    pub fn last_wire(&self) -> WireId
        ensures { result ≡ wire (length self.now.widths - 1) }
    {
        WireId {
            number: self.next().saturating_sub(1),
        }
    }

    // A cell and a wire of this width.
    fn push(&mut self, width: u32, cell: Cell) -> Result<(), NoMemory>
        ensures { OnOk result (self.new ≡ self.old ▸ record { widths = width ∷ []; cells = cell ∷ [] }) }
    {
        if self.widths.len() >= u32::MAX as usize {
            return Err(NoMemory);
        }
        self.widths.push(width)?;
        self.cells.push(cell)?;
        Ok(())
    }

    /// A cell on one wire; nothing where the wire has no bits.
    pub fn one(&mut self, width: u32, cell: Cell) -> Result<(), NoMemory>
        ensures { OnOk result (self.new ≡ self.old ▸ one width cell) }
    {
        if width == 0 {
            return Ok(());
        }
        self.push(width, cell)
    }

    /// A cell alone; the wires that it drives are added apart.
    pub(crate) fn add_cell(&mut self, cell: Cell) -> Result<(), NoMemory>
        ensures { OnOk result (self.new ≡ self.old ▸ record { widths = []; cells = cell ∷ [] }) }
    {
        self.cells.push(cell)?;
        Ok(())
    }

    // The wire of a part of this width alone; none where it has no bits.
    fn add_wire(&mut self, width: u32) -> Result<(), NoMemory>
        ensures { OnOk result (self.new ≡ self.old ▸ record { widths = present (width ∷ []); cells = [] }) }
    {
        if width == 0 {
            return Ok(());
        }
        if self.widths.len() >= u32::MAX as usize {
            return Err(NoMemory);
        }
        self.widths.push(width)?;
        Ok(())
    }

    /// The wires of parts of these widths alone.
    pub(crate) fn add_wires(&mut self, widths: &[u32]) -> Result<(), NoMemory>
        ensures { OnOk result (self.new ≡ self.old ▸ record { widths = present widths.now; cells = [] }) }
    {
        for w in widths {
            self.add_wire(*w)?;
        }
        Ok(())
    }

    /// The widths of all wires, and the cells.
    pub fn into_parts(self) -> (Seq<u32>, Seq<Cell>)
        ensures widths { result.0 ≡ self.widths }
        ensures cells { result.1 ≡ self.cells }
    {
        (Seq::from(self.widths), Seq::from(self.cells))
    }
}
