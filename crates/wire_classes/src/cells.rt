//! Cells of one kind that read equal wires, and wires of which the same bits are known.
ghost use Rattle.std.specs.Prelude.{◌≡◌, ◌<◌, length, IfNone, IfOk, IfSome};
ghost use Rattle.wire_classes.specs.Closed.{AreFound, BitsHold, CellsHold};
ghost use Rattle.wire_classes.specs.Keys.{AreMarked};
ghost use Rattle.wire_classes.specs.Steps.{IsStep};

use crate::agreeing::{Finding, look_at_all};
use crate::clash::clash;
use crate::keys::cell_keys;
use crate::labels::wire_at;
use crate::marked::{keys_of, labels_of, marked_wires};
use crate::steps::Step;
use chw_base::NoMemory;
use chw_bits::Bits;
use netlist::Flat;
use std::alloc::Global;

// A step that cells of one kind leave, by their keys.
fn keys_step(
    alloc: Global,
    flat: &Flat,
    of: &[u32],
    known: &[bool],
    values: &[Bits],
) -> Result<Option<Step>, NoMemory>
    requires { AreFound flat.now of.now known.now values.now }
    ensures none { IfOk result (λ o. IfNone o (CellsHold flat.now of.now)) }
    ensures some { IfOk result (λ o. IfSome o (IsStep flat.now of.now known.now)) }
{
    let inputs = flat.ports.inputs.len();
    let keys = cell_keys(alloc, flat, of)?;
    match clash(alloc, &keys, &of[inputs..])? {
        Some((p, q)) => Ok(Some(Step::Merge(wire_at(flat, p), wire_at(flat, q)))),
        None => Ok(None),
    }
}

/// A step that cells of one kind leave. Keys are kept only where two of them have one number.
pub(crate) fn cells_step(
    alloc: Global,
    flat: &Flat,
    of: &[u32],
    known: &[bool],
    values: &[Bits],
) -> Result<Option<Step>, NoMemory>
    requires { AreFound flat.now of.now known.now values.now }
    ensures none { IfOk result (λ o. IfNone o (CellsHold flat.now of.now)) }
    ensures some { IfOk result (λ o. IfSome o (IsStep flat.now of.now known.now)) }
{
    let inputs = flat.ports.inputs.len();
    let Some(found) = look_at_all(alloc, flat, of, &of[inputs..])? else {
        return Ok(None);
    };
    match found {
        Finding::Apart(p, q) => Ok(Some(Step::Merge(wire_at(flat, p), wire_at(flat, q)))),
        Finding::Unclear => keys_step(alloc, flat, of, known, values),
    }
}

// A step that these wires leave, which are the marked ones.
fn marked_step(
    alloc: Global,
    flat: &Flat,
    of: &[u32],
    known: &[bool],
    values: &[Bits],
    wires: &[u32],
) -> Result<Option<Step>, NoMemory>
    requires found { AreFound flat.now of.now known.now values.now }
    requires marked { AreMarked known.now (length flat.now.widths) wires.now }
    ensures none { IfOk result (λ o. IfNone o (BitsHold of.now known.now values.now)) }
    ensures some { IfOk result (λ o. IfSome o (IsStep flat.now of.now known.now)) }
{
    let keys = keys_of(alloc, values, wires)?;
    let labels = labels_of(alloc, of, wires)?;
    match clash(alloc, &keys, &labels)? {
        Some((i, j)) => Ok(Some(Step::Merge(wires[i as usize], wires[j as usize]))),
        None => Ok(None),
    }
}

/// A step that wires of the same bits leave.
pub(crate) fn bits_step(
    alloc: Global,
    flat: &Flat,
    of: &[u32],
    known: &[bool],
    values: &[Bits],
) -> Result<Option<Step>, NoMemory>
    requires { AreFound flat.now of.now known.now values.now }
    ensures none { IfOk result (λ o. IfNone o (BitsHold of.now known.now values.now)) }
    ensures some { IfOk result (λ o. IfSome o (IsStep flat.now of.now known.now)) }
{
    let wires = marked_wires(alloc, known, flat.widths.len() as u32)?;
    marked_step(alloc, flat, of, known, values, &wires)
}
