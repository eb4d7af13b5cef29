//! `Needed`, the needed wires that were found so far.
ghost use Rattle.std.specs.Prelude.{◌≡◌, ℕ, ◌<◌, [], ◌∷◌, length, replicate, false, IfOk, OnOk};
ghost use Rattle.std.specs.Prelude.{Some, slice_get};
ghost use Rattle.std.specs.List.{AllByRecursion};
ghost use Rattle.net_share.specs.Marking.{AreMarked, IsListed, Marks, served};
ghost use Rattle.netlist.specs.Wires.{read_by};

use chw_base::{NoMemory, WireId};
use netlist::Cell;
use std::alloc::Global;

/// The needed wires that were found, in order, and by wire whether it was found.
#[derive(Drop)]
pub(crate) struct Needed {
    pub marks: Vec<bool>,
    pub found: Vec<u32>,
}

impl Needed {
    /// Of so many wires none.
    pub(crate) fn none(alloc: Global, count: usize) -> Result<Needed, NoMemory>
        ensures marks { IfOk result (λ n. n.marks.items ≡ replicate count false) }
        ensures found { IfOk result (λ n. n.found.items ≡ []) }
    {
        let marks = vec![in alloc; false; count]?;
        Ok(Needed {
            marks,
            found: Vec::new(alloc),
        })
    }
}

/// Marks a wire. The first time it is found.
pub(crate) fn mark(needed: &mut Needed, w: u32) -> Result<(), NoMemory>
    requires marked { AreMarked needed.old.marks.items needed.old.found.items }
    requires wire { w < length needed.old.marks.items }
    ensures { OnOk result (Marks needed.old.marks.items needed.old.found.items
        needed.new.marks.items needed.new.found.items (w ∷ [])) }
{
    let place = w as usize;
    let is_marked = needed.marks[place];
    if is_marked {
        return Ok(());
    }
    needed.found.push(w)?;
    needed.marks[place] = true;
    Ok(())
}

/// Marks what serves these wires.
pub(crate) fn mark_all(
    needed: &mut Needed,
    servers: &[u32],
    wires: &[WireId],
) -> Result<(), NoMemory>
    requires marked { AreMarked needed.old.marks.items needed.old.found.items }
    requires servers { (w v : ℕ) → slice_get servers.now w ≡ Some v
        → v < length needed.old.marks.items }
    requires wires { AllByRecursion (IsListed servers.now) wires.now }
    ensures { OnOk result (Marks needed.old.marks.items needed.old.found.items
        needed.new.marks.items needed.new.found.items (served servers.now wires.now)) }
{
    for wire in wires {
        mark(needed, servers[wire.number as usize])?;
    }
    Ok(())
}

/// Marks what serves the wires that a cell reads.
pub(crate) fn mark_reads(needed: &mut Needed, servers: &[u32], cell: &Cell) -> Result<(), NoMemory>
    requires marked { AreMarked needed.old.marks.items needed.old.found.items }
    requires servers { (w v : ℕ) → slice_get servers.now w ≡ Some v
        → v < length needed.old.marks.items }
    requires wires { AllByRecursion (IsListed servers.now) (read_by cell.now) }
    ensures { OnOk result (Marks needed.old.marks.items needed.old.found.items
        needed.new.marks.items needed.new.found.items (served servers.now (read_by cell.now))) }
{
    match cell {
        Cell::Const(_, _) => mark_all(needed, servers, &[]),
        Cell::Copy(_, a) | Cell::Cut(_, a, _, _) | Cell::Un(_, _, a) => {
            mark_all(needed, servers, &[*a])
        }
        Cell::Bin(_, _, a, b) => mark_all(needed, servers, &[*a, *b]),
        Cell::Mux(_, on, a, b) => mark_all(needed, servers, &[*on, *a, *b]),
        Cell::Join(_, parts) => mark_all(needed, servers, parts.as_slice()),
        Cell::Reg(_, _, _, a) => mark_all(needed, servers, &[*a]),
        Cell::Ram(_, _, _, inputs) => {
            let wires = [inputs.read, inputs.enable, inputs.place, inputs.value];
            mark_all(needed, servers, &wires)
        }
        Cell::Use(_, reads, _) => mark_all(needed, servers, reads.as_slice()),
    }
}
