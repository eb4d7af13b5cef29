//! Wires and cells under new numbers.
ghost use Rattle.std.specs.Prelude.{◌≡◌, ◌<◌, length, map, IfOk};
ghost use Rattle.std.specs.List.{AllByRecursion};
ghost use Rattle.net_share.specs.Renaming.{IsNamed, new_wire, new_wires, renamed};
ghost use Rattle.netlist.specs.Wires.{read_by};

use chw_base::{NoMemory, Seq, WireId};
use chw_bits::Bits;
use netlist::{Cell, RamIn};
use std::alloc::Global;

// What becomes of a wire.
fn wire_after(names: &[u32], w: WireId) -> WireId
    requires { IsNamed names.now w }
    ensures { result ≡ new_wire names.now w }
{
    WireId {
        number: names[w.number as usize],
    }
}

/// What becomes of these wires.
pub(crate) fn wires_after(
    alloc: Global,
    names: &[u32],
    wires: &[WireId],
) -> Result<Seq<WireId>, NoMemory>
    requires { AllByRecursion (IsNamed names.now) wires.now }
    ensures { IfOk result (λ after. after ≡ new_wires names.now wires.now) }
{
    let mut after = Vec::new(alloc);
    for w in wires {
        after.push(wire_after(names, *w))?;
    }
    Ok(Seq::from(after))
}

// What becomes of what a RAM reads.
fn inputs_after(names: &[u32], inputs: &RamIn) -> RamIn
    requires read { IsNamed names.now inputs.now.read }
    requires enable { IsNamed names.now inputs.now.enable }
    requires place { IsNamed names.now inputs.now.place }
    requires value { IsNamed names.now inputs.now.value }
    ensures read { result.read ≡ new_wire names.now inputs.now.read }
    ensures enable { result.enable ≡ new_wire names.now inputs.now.enable }
    ensures place { result.place ≡ new_wire names.now inputs.now.place }
    ensures value { result.value ≡ new_wire names.now inputs.now.value }
{
    RamIn {
        read: wire_after(names, inputs.read),
        enable: wire_after(names, inputs.enable),
        place: wire_after(names, inputs.place),
        value: wire_after(names, inputs.value),
    }
}

// The same words once more.
fn copy_words(alloc: Global, words: &Seq<Bits>) -> Result<Seq<Bits>, NoMemory>
    ensures { IfOk result (λ copy. copy ≡ words.now) }
{
    let mut copy = Vec::new(alloc);
    for word in words.as_slice() {
        copy.push(word.copy(alloc)?)?;
    }
    Ok(Seq::from(copy))
}

// The same wires once more.
fn copy_wires(alloc: Global, wires: &Seq<WireId>) -> Result<Seq<WireId>, NoMemory>
    ensures { IfOk result (λ copy. copy ≡ wires.now) }
{
    let copy = Vec::from_slice(alloc, wires.as_slice())?;
    Ok(Seq::from(copy))
}

/// A cell, where it drives the wire of this number and reads what its wires become.
pub(crate) fn cell_after(
    alloc: Global,
    names: &[u32],
    number: u32,
    cell: &Cell,
) -> Result<Cell, NoMemory>
    requires { AllByRecursion (IsNamed names.now) (read_by cell.now) }
    ensures { IfOk result (λ after. after ≡ renamed names.now number cell.now) }
{
    let w = WireId { number };
    Ok(match cell {
        Cell::Const(_, bits) => Cell::Const(w, bits.copy(alloc)?),
        Cell::Copy(_, a) => Cell::Copy(w, wire_after(names, *a)),
        Cell::Join(_, parts) => Cell::Join(w, wires_after(alloc, names, parts.as_slice())?),
        Cell::Cut(_, a, high, low) => Cell::Cut(w, wire_after(names, *a), *high, *low),
        Cell::Un(_, op, a) => Cell::Un(w, *op, wire_after(names, *a)),
        Cell::Bin(_, op, a, b) => {
            Cell::Bin(w, *op, wire_after(names, *a), wire_after(names, *b))
        }
        Cell::Mux(_, on, a, b) => {
            let on = wire_after(names, *on);
            Cell::Mux(w, on, wire_after(names, *a), wire_after(names, *b))
        }
        Cell::Reg(_, domain, initial, a) => {
            let initial = initial.copy(alloc)?;
            Cell::Reg(w, *domain, initial, wire_after(names, *a))
        }
        Cell::Ram(_, domain, words, inputs) => {
            let words = copy_words(alloc, words)?;
            Cell::Ram(w, *domain, words, inputs_after(names, inputs))
        }
        Cell::Use(module, reads, drives) => {
            let reads = wires_after(alloc, names, reads.as_slice())?;
            let drives = copy_wires(alloc, drives)?;
            Cell::Use(*module, reads, drives)
        }
    })
}
