//! The nodes of comparisons.
ghost use Rattle.std.specs.Prelude.{◌≤◌, OnOk};
ghost use Rattle.chw_base.specs.declared.limits.TheConstants.{WIRE_BITS};
ghost use Rattle.netlist.specs.declared.net.Flat.{Flat as TheFlat};
ghost use Rattle.netlist.specs.declared.net.Op2.TheVariants.{Eq, LtS, LtU};
ghost use Rattle.bit_laws.specs.Blast.{binary_nodes, less_nodes};
ghost use Rattle.bit_blast.specs.Adding.{Adds};
ghost use Rattle.bit_blast.specs.Names.{lowest};

use bit_nodes::{BitGate, BitName, BitNode};
use chw_base::{NoMemory, WireId};

/// Whether words of this width are equal.
pub(crate) fn equal(
    nodes: &mut Vec<BitNode>,
    w: WireId,
    a: WireId,
    b: WireId,
    width: u32,
) -> Result<(), NoMemory>
    requires { width ≤ WIRE_BITS }
    ensures { OnOk result ((flat : TheFlat) → Adds flat nodes.old.items nodes.new.items
        (binary_nodes Eq w.number (lowest flat w.number 1) (lowest flat a.number width)
        (lowest flat b.number width))) }
{
    nodes.push(BitNode::Table {
        gate: BitGate::Always,
        drives: BitName::Further { wire: w, number: 0 },
    })?;
    for place in 0..width {
        let x = BitName::Bit { wire: a, place };
        let y = BitName::Bit { wire: b, place };
        let below = BitName::Further {
            wire: w,
            number: 2 * place,
        };
        let alike = BitName::Further {
            wire: w,
            number: 2 * place + 1,
        };
        nodes.push(BitNode::Table {
            gate: BitGate::Alike(x, y),
            drives: alike,
        })?;
        nodes.push(BitNode::Table {
            gate: BitGate::Both(below, alike),
            drives: BitName::Further {
                wire: w,
                number: 2 * place + 2,
            },
        })?;
    }
    nodes.push(BitNode::Table {
        gate: BitGate::Buffer(BitName::Further {
            wire: w,
            number: 2 * width,
        }),
        drives: BitName::Bit { wire: w, place: 0 },
    })?;
    Ok(())
}

// Whether the lowest bits of a word, so many, are less than those of another one.
fn below(
    nodes: &mut Vec<BitNode>,
    w: WireId,
    a: WireId,
    b: WireId,
    width: u32,
) -> Result<(), NoMemory>
    requires { width ≤ WIRE_BITS }
    ensures { OnOk result ((flat : TheFlat) → Adds flat nodes.old.items nodes.new.items
        (less_nodes w.number (lowest flat a.number width) (lowest flat b.number width))) }
{
    for place in 0..width {
        let x = BitName::Bit { wire: a, place };
        let y = BitName::Bit { wire: b, place };
        let below = BitName::Further {
            wire: w,
            number: place,
        };
        nodes.push(BitNode::Table {
            gate: BitGate::Less(x, y, below),
            drives: BitName::Further {
                wire: w,
                number: place + 1,
            },
        })?;
    }
    Ok(())
}

/// Whether a word of this width is less than another one.
pub(crate) fn less(
    nodes: &mut Vec<BitNode>,
    w: WireId,
    a: WireId,
    b: WireId,
    width: u32,
) -> Result<(), NoMemory>
    requires { width ≤ WIRE_BITS }
    ensures { OnOk result ((flat : TheFlat) → Adds flat nodes.old.items nodes.new.items
        (binary_nodes LtU w.number (lowest flat w.number 1) (lowest flat a.number width)
        (lowest flat b.number width))) }
{
    nodes.push(BitNode::Table {
        gate: BitGate::Never,
        drives: BitName::Further { wire: w, number: 0 },
    })?;
    below(nodes, w, a, b, width)?;
    nodes.push(BitNode::Table {
        gate: BitGate::Buffer(BitName::Further {
            wire: w,
            number: width,
        }),
        drives: BitName::Bit { wire: w, place: 0 },
    })?;
    Ok(())
}

/// The same of signed words: the first bits are exchanged.
pub(crate) fn less_signed(
    nodes: &mut Vec<BitNode>,
    w: WireId,
    a: WireId,
    b: WireId,
    width: u32,
) -> Result<(), NoMemory>
    requires some { 1 ≤ width }
    requires within { width ≤ WIRE_BITS }
    ensures { OnOk result ((flat : TheFlat) → Adds flat nodes.old.items nodes.new.items
        (binary_nodes LtS w.number (lowest flat w.number 1) (lowest flat a.number width)
        (lowest flat b.number width))) }
{
    let sign = width - 1;
    let x = BitName::Bit {
        wire: a,
        place: sign,
    };
    let y = BitName::Bit {
        wire: b,
        place: sign,
    };
    let others = BitName::Further {
        wire: w,
        number: sign,
    };
    let all = BitName::Further {
        wire: w,
        number: width,
    };
    nodes.push(BitNode::Table {
        gate: BitGate::Never,
        drives: BitName::Further { wire: w, number: 0 },
    })?;
    below(nodes, w, a, b, sign)?;
    nodes.push(BitNode::Table {
        gate: BitGate::Less(y, x, others),
        drives: all,
    })?;
    nodes.push(BitNode::Table {
        gate: BitGate::Buffer(all),
        drives: BitName::Bit { wire: w, place: 0 },
    })?;
    Ok(())
}
