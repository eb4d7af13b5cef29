//! The nodes of sums and differences.
ghost use Rattle.std.specs.Prelude.{◌≤◌, OnOk};
ghost use Rattle.chw_base.specs.declared.limits.TheConstants.{WIRE_BITS};
ghost use Rattle.netlist.specs.declared.net.Flat.{Flat as TheFlat};
ghost use Rattle.netlist.specs.declared.net.Op2.TheVariants.{Add, Sub};
ghost use Rattle.bit_laws.specs.Blast.{binary_nodes};
ghost use Rattle.bit_blast.specs.Adding.{Adds};
ghost use Rattle.bit_blast.specs.Names.{lowest};

use bit_nodes::{BitGate, BitName, BitNode};
use chw_base::{NoMemory, WireId};

/// A sum of words of this width: the first carry is 0.
pub(crate) fn sum(
    nodes: &mut Vec<BitNode>,
    w: WireId,
    a: WireId,
    b: WireId,
    width: u32,
) -> Result<(), NoMemory>
    requires { width ≤ WIRE_BITS }
    ensures { OnOk result ((flat : TheFlat) → Adds flat nodes.old.items nodes.new.items
        (binary_nodes Add w.number (lowest flat w.number width) (lowest flat a.number width)
        (lowest flat b.number width))) }
{
    nodes.push(BitNode::Table {
        gate: BitGate::Never,
        drives: BitName::Further { wire: w, number: 0 },
    })?;
    for place in 0..width {
        let x = BitName::Bit { wire: a, place };
        let y = BitName::Bit { wire: b, place };
        let carry = BitName::Further {
            wire: w,
            number: place,
        };
        nodes.push(BitNode::Table {
            gate: BitGate::Odd(x, y, carry),
            drives: BitName::Bit { wire: w, place },
        })?;
        nodes.push(BitNode::Table {
            gate: BitGate::Most(x, y, carry),
            drives: BitName::Further {
                wire: w,
                number: place + 1,
            },
        })?;
    }
    Ok(())
}

/// A difference of words of this width: the sum with the opposite bits, where the first carry is 1.
pub(crate) fn difference(
    nodes: &mut Vec<BitNode>,
    w: WireId,
    a: WireId,
    b: WireId,
    width: u32,
) -> Result<(), NoMemory>
    requires { width ≤ WIRE_BITS }
    ensures { OnOk result ((flat : TheFlat) → Adds flat nodes.old.items nodes.new.items
        (binary_nodes Sub w.number (lowest flat w.number width) (lowest flat a.number width)
        (lowest flat b.number width))) }
{
    nodes.push(BitNode::Table {
        gate: BitGate::Always,
        drives: BitName::Further { wire: w, number: 0 },
    })?;
    for place in 0..width {
        let x = BitName::Bit { wire: a, place };
        let carry = BitName::Further {
            wire: w,
            number: 2 * place,
        };
        let opposite = BitName::Further {
            wire: w,
            number: 2 * place + 1,
        };
        nodes.push(BitNode::Table {
            gate: BitGate::Inverse(BitName::Bit { wire: b, place }),
            drives: opposite,
        })?;
        nodes.push(BitNode::Table {
            gate: BitGate::Odd(x, opposite, carry),
            drives: BitName::Bit { wire: w, place },
        })?;
        nodes.push(BitNode::Table {
            gate: BitGate::Most(x, opposite, carry),
            drives: BitName::Further {
                wire: w,
                number: 2 * place + 2,
            },
        })?;
    }
    Ok(())
}
