//! Whether each wire of a module that is no input is driven once.
ghost use Rattle.std.specs.Prelude.{◌≡◌, ℕ, ◌+◌, ◌<◌, ◌≤◌, false, true, flat_map, slice_index_or, length, IfOk};
ghost use Rattle.std.specs.Bool.{Decides, OnTrue, OnFalse};
ghost use Rattle.std.specs.List.{AllByRecursion};
ghost use Rattle.netlist.specs.Sound.{EachOnce};
ghost use Rattle.net_rules.specs.WellFormed.{DriversHold, NamesHold, wire_driven_at};
ghost use Rattle.net_rules.specs.Marks.{IsUnmarked, Marks};
ghost use Rattle.netlist.specs.Wires.{driven};

use chw_base::{NoMemory, WireId};
use netlist::{Cell, Module, Net};
use std::alloc::Global;

// The wires that cells drive, in order.
fn driven_by(alloc: Global, cells: &[Cell]) -> Result<Vec<WireId>, NoMemory>
    ensures { IfOk result (λ v. v.items ≡ flat_map driven cells.now) }
{
    let mut wires = Vec::new(alloc);
    for cell in cells {
        wires.extend_from_slice(cell.driven())?;
    }
    Ok(wires)
}

// Marks each of these wires, up to one that is an input or marked already.
fn mark_all(inputs: u32, driven: &[WireId], marks: &mut [bool]) -> bool
    requires none { IsUnmarked marks.old }
    requires wires { AllByRecursion (λ w. w.number < length marks.old) driven.now }
    ensures yes { OnTrue result (Marks inputs driven.now marks.new (length driven.now)) }
    ensures no { OnFalse result (EachOnce inputs (length marks.old) (wire_driven_at driven.now) → ⊥) }
{
    for w in driven {
        let place = w.number as usize;
        if w.number < inputs {
            return false;
        }
        if marks[place] {
            return false;
        }
        marks[place] = true;
    }
    true
}

// Whether each place from this one on is marked.
fn all_marked(inputs: u32, marks: &[bool]) -> bool
    ensures { Decides result ((w : ℕ) → inputs ≤ w → w < length marks.now → slice_index_or marks.now w false ≡ true) }
{
    marks
        .iter()
        .enumerate()
        .all(|(w, marked)| w < inputs as usize || *marked)
}

// Whether each wire but the first ones, which are inputs, is driven at one place of this list, and no input is. Nothing is marked yet.
fn each_marked_once(inputs: u32, driven: &[WireId], marks: &mut [bool]) -> bool
    requires none { IsUnmarked marks.old }
    requires wires { AllByRecursion (λ w. w.number < length marks.old) driven.now }
    ensures { Decides result (EachOnce inputs (length marks.old) (wire_driven_at driven.now)) }
{
    if !mark_all(inputs, driven, marks) {
        return false;
    }
    all_marked(inputs, marks)
}

// The same of so many wires.
fn each_once(alloc: Global, inputs: u32, wires: usize, driven: &[WireId]) -> Result<bool, NoMemory>
    requires { AllByRecursion (λ w. w.number < wires) driven.now }
    ensures { IfOk result (λ r. Decides r (EachOnce inputs wires (wire_driven_at driven.now))) }
{
    let mut marks = vec![in alloc; false; wires]?;
    Ok(each_marked_once(inputs, driven, &mut marks))
}

// Whether a module of a net has an output, unless it is the last.
fn has_outputs(net: &Net, i: usize, m: &Module) -> bool
    requires { i < length net.now.modules }
    ensures { Decides result (i + 1 < length net.now.modules → 1 ≤ length m.now.outputs) }
{
    let modules = net.modules.as_slice();
    i + 1 >= modules.len() || !m.outputs.is_empty()
}

/// Whether a module has its inputs among its wires, each other wire is driven once, and the module has an output unless it is the
/// last.
///
/// It takes memory for a mark for each wire.
pub(crate) fn drivers_hold(alloc: Global, net: &Net, i: usize, m: &Module) -> Result<bool, NoMemory>
    requires place { i < length net.now.modules }
    requires names { NamesHold net.now i m.now }
    ensures { IfOk result (λ r. Decides r (DriversHold net.now i m.now)) }
{
    if m.inputs as usize > m.widths.len() {
        return Ok(false);
    }
    if !has_outputs(net, i, m) {
        return Ok(false);
    }
    let cells = m.cells.as_slice();
    let wires = driven_by(alloc, cells)?;
    each_once(alloc, m.inputs, m.widths.len(), &wires)
}
