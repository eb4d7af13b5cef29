//! The cells of constructors, of fields and of what a case tests.
ghost use Rattle.std.specs.Prelude.{◌≡◌, ◌-◌, length, OnOk};
ghost use Rattle.net_built.specs.Data.{constructed, field_cuts};
ghost use Rattle.net_built.specs.Wires.{wire, one, ◌▸◌};
ghost use Rattle.net_built.specs.Words.{only};
ghost use Rattle.netlist.specs.declared.net.Cell.TheVariants.{Cut};

use crate::cells::Pieces;
use crate::copies::constant;
use crate::parts;
use crate::words::zero_word;
use chw_base::{NoMemory, WireId};
use netlist::Cell;
use std::alloc::Global;

/// Appends a constructor: its tag of so many bits, its number among those of its data type, the wires of its fields, which have so many
/// bits together, and padding up to the width of the type.
pub fn constructed(
    into: &mut Pieces,
    alloc: Global,
    tag: u32,
    number: u32,
    fields: u32,
    width: u32,
    wires: &[WireId],
) -> Result<(), NoMemory>
    ensures { OnOk result (into.new ≡ into.old ▸ constructed tag number fields width (length into.old.widths) wires.now) }
{
    let padding = width.saturating_sub(parts::sum(tag, fields)?);
    let first = into.next();
    let bits = parts::number(alloc, tag, number)?;
    constant(into, tag, bits)?;
    let second = into.next();
    zero_word(into, alloc, padding)?;
    let w = into.next_wire();
    let all = parts::framed(alloc, first, tag, wires, second, padding)?;
    into.one(width, Cell::Join(w, all))
}

/// Appends the cut of the upper bits, so many, out of the lowest bits of a wire, of which there are so many. On the highest bits of data
/// this is what a case tests.
pub fn upper_bits(into: &mut Pieces, below: u32, w: u32, a: &[WireId]) -> Result<(), NoMemory>
    ensures { OnOk result (into.new ≡ into.old
        ▸ one w (Cut (wire (length into.old.widths)) (only a.now) (below - 1) (below - w))) }
{
    let wire = into.next_wire();
    let high = below.saturating_sub(1);
    let low = below.saturating_sub(w);
    into.one(w, Cell::Cut(wire, parts::only(a), high, low))
}

/// Appends the fields of these widths, cut from the lowest bits of a wire, of which there are so many.
pub fn field_cuts(
    into: &mut Pieces,
    below: u32,
    a: &[WireId],
    widths: &[u32],
) -> Result<(), NoMemory>
    ensures { OnOk result (into.new ≡ into.old ▸ field_cuts below a.now widths.now (length into.old.widths)) }
{
    let mut left = below;
    for w in widths {
        upper_bits(into, left, *w, a)?;
        left = left.saturating_sub(*w);
    }
    Ok(())
}
