//! The nodes of products, row by row.
ghost use Rattle.std.specs.Prelude.{◌≡◌, ◌+◌, ◌*◌, ◌<◌, ◌≤◌, ◌^◌, [], ◌∷◌, ◌++◌, OnOk};
ghost use Rattle.chw_base.specs.declared.limits.TheConstants.{ARITHMETIC_BITS};
ghost use Rattle.netlist.specs.declared.net.Flat.{Flat as TheFlat};
ghost use Rattle.netlist.specs.declared.net.Op2.TheVariants.{Mul};
ghost use Rattle.bit_laws.specs.BitNames.{further, furthers};
ghost use Rattle.bit_laws.specs.Blast.{binary_nodes, masked, on_each, product_nodes, row_nodes};
ghost use Rattle.bit_laws.specs.Gates.Gate.{buffer};
ghost use Rattle.bit_nodes.specs.Standing.{name_of};
ghost use Rattle.bit_nodes.specs.declared.nodes.BitGate.TheVariants.{Buffer};
ghost use Rattle.bit_nodes.specs.declared.nodes.BitName.TheVariants.{Bit, Further};
ghost use Rattle.bit_nodes.specs.declared.nodes.BitNode.TheVariants.{Table};
ghost use Rattle.bit_blast.specs.Adding.{Adds};
ghost use Rattle.bit_blast.specs.Names.{by_places, lowest};
ghost use Rattle.bit_blast.specs.Numbering.{nth, spaced};
ghost use Rattle.bit_blast.specs.Products.{carried_row, end_number, place_nodes};

use crate::numbers::Numbers;
use bit_nodes::{BitGate, BitName, BitNode};
use chw_base::{NoMemory, WireId};

/// A product of words of this width.
pub(crate) fn product(
    nodes: &mut Vec<BitNode>,
    w: WireId,
    a: WireId,
    b: WireId,
    width: u32,
) -> Result<(), NoMemory>
    requires some { 1 ≤ width }
    requires within { width ≤ ARITHMETIC_BITS }
    ensures { OnOk result ((flat : TheFlat) → Adds flat nodes.old.items nodes.new.items
        (binary_nodes Mul w.number (lowest flat w.number width) (lowest flat a.number width)
        (lowest flat b.number width))) }
{
    rows(nodes, w, a, b, width)?;
    ends(nodes, w, width)?;
    Ok(())
}

// All rows. The word that is added to has other names after each of them.
fn rows(
    nodes: &mut Vec<BitNode>,
    w: WireId,
    a: WireId,
    b: WireId,
    width: u32,
) -> Result<(), NoMemory>
    requires some { 1 ≤ width }
    requires within { width ≤ ARITHMETIC_BITS }
    ensures { OnOk result ((flat : TheFlat) → Adds flat nodes.old.items nodes.new.items
        (product_nodes w.number (lowest flat a.number width) (lowest flat b.number width))) }
{
    first_row(nodes, w, a, BitName::Bit { wire: b, place: 0 }, width)?;
    let mut carry = width;
    let mut sums = Numbers::Each(1);
    for row in 1..width {
        let left = width - row;
        let mask = BitName::Bit {
            wire: b,
            place: row,
        };
        next_row(nodes, w, carry, sums, a, mask, left)?;
        sums = Numbers::EachThird(carry + 5);
        carry += 1 + 3 * left;
    }
    Ok(())
}

// The first row: the bits of a word, each masked by a bit.
fn first_row(
    nodes: &mut Vec<BitNode>,
    w: WireId,
    a: WireId,
    mask: BitName,
    width: u32,
) -> Result<(), NoMemory>
    ensures { OnOk result ((flat : TheFlat) → Adds flat nodes.old.items nodes.new.items
        (masked (furthers w.number 0 width) (lowest flat a.number width) (name_of flat mask))) }
{
    for place in 0..width {
        nodes.push(BitNode::Table {
            gate: BitGate::Both(BitName::Bit { wire: a, place }, mask),
            drives: BitName::Further {
                wire: w,
                number: place,
            },
        })?;
    }
    Ok(())
}

// A later row, behind its first carry.
fn next_row(
    nodes: &mut Vec<BitNode>,
    w: WireId,
    carry: u32,
    sums: Numbers,
    a: WireId,
    mask: BitName,
    width: u32,
) -> Result<(), NoMemory>
    requires carries { carry + 3 * width < 2 ^ 32 }
    requires sums { nth sums width < 2 ^ 32 }
    ensures { OnOk result ((flat : TheFlat) → Adds flat nodes.old.items nodes.new.items
        (carried_row w.number carry (spaced w.number sums width) (lowest flat a.number width)
        (name_of flat mask))) }
{
    nodes.push(BitNode::Table {
        gate: BitGate::Never,
        drives: BitName::Further {
            wire: w,
            number: carry,
        },
    })?;
    row(nodes, w, carry, sums, a, mask, width)?;
    Ok(())
}

// The bits of a word, each masked by a bit, are added to those of these numbers.
fn row(
    nodes: &mut Vec<BitNode>,
    w: WireId,
    carry: u32,
    sums: Numbers,
    a: WireId,
    mask: BitName,
    width: u32,
) -> Result<(), NoMemory>
    requires carries { carry + 3 * width < 2 ^ 32 }
    requires sums { nth sums width < 2 ^ 32 }
    ensures { OnOk result ((flat : TheFlat) → Adds flat nodes.old.items nodes.new.items
        (row_nodes w.number carry (spaced w.number sums width) (lowest flat a.number width)
        (name_of flat mask))) }
{
    for place in 0..width {
        let sum = BitName::Further {
            wire: w,
            number: sums.at(place),
        };
        let bit = BitName::Bit { wire: a, place };
        at_place(nodes, w, carry + 3 * place, sum, bit, mask)?;
    }
    Ok(())
}

// The nodes of a row at one place. It reads the carry of this number.
fn at_place(
    nodes: &mut Vec<BitNode>,
    w: WireId,
    carry: u32,
    sum: BitName,
    bit: BitName,
    mask: BitName,
) -> Result<(), NoMemory>
    requires { carry + 3 < 2 ^ 32 }
    ensures { OnOk result ((flat : TheFlat) → Adds flat nodes.old.items nodes.new.items
        (place_nodes w.number carry (name_of flat sum) (name_of flat bit) (name_of flat mask))) }
{
    let before = BitName::Further {
        wire: w,
        number: carry,
    };
    let part = BitName::Further {
        wire: w,
        number: carry + 1,
    };
    nodes.push(BitNode::Table {
        gate: BitGate::Both(bit, mask),
        drives: part,
    })?;
    nodes.push(BitNode::Table {
        gate: BitGate::Odd(sum, part, before),
        drives: BitName::Further {
            wire: w,
            number: carry + 2,
        },
    })?;
    nodes.push(BitNode::Table {
        gate: BitGate::Most(sum, part, before),
        drives: BitName::Further {
            wire: w,
            number: carry + 3,
        },
    })?;
    Ok(())
}

// The buffers behind all rows. A place is added to last in the row of its number.
fn ends(nodes: &mut Vec<BitNode>, w: WireId, width: u32) -> Result<(), NoMemory>
    requires some { 1 ≤ width }
    requires within { width ≤ ARITHMETIC_BITS }
    ensures { OnOk result ((flat : TheFlat) → Adds flat nodes.old.items nodes.new.items
        (on_each buffer (lowest flat w.number width)
        (by_places (λ j. further w.number (end_number width j)) width))) }
{
    nodes.push(BitNode::Table {
        gate: BitGate::Buffer(BitName::Further { wire: w, number: 0 }),
        drives: BitName::Bit { wire: w, place: 0 },
    })?;
    let mut carry = width;
    for place in 1..width {
        put_end(nodes, w, place, carry + 2)?;
        carry += 1 + 3 * (width - place);
    }
    Ok(())
}

// A buffer of the further node of this number for a bit of the product.
fn put_end(nodes: &mut Vec<BitNode>, w: WireId, place: u32, number: u32) -> Result<(), NoMemory>
    ensures { OnOk result (nodes.new.items
        ≡ nodes.old.items ++ Table (Buffer (Further w number)) (Bit w place) ∷ []) }
{
    nodes.push(BitNode::Table {
        gate: BitGate::Buffer(BitName::Further { wire: w, number }),
        drives: BitName::Bit { wire: w, place },
    })?;
    Ok(())
}
