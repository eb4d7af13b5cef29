//! The nodes of gates on the bits of two words, of choices and of reductions.
ghost use Rattle.std.specs.Prelude.{◌≤◌, OnOk};
ghost use Rattle.netlist.specs.declared.net.Flat.{Flat as TheFlat};
ghost use Rattle.bit_laws.specs.Blast.{choices_by, on_both, reduction};
ghost use Rattle.bit_blast.specs.Adding.{Adds};
ghost use Rattle.bit_blast.specs.Gating.{gate_of_two};
ghost use Rattle.bit_blast.specs.Names.{lowest};

use crate::gates::{TwoBits, folding};
use bit_nodes::{BitGate, BitName, BitNode};
use chw_base::{NoMemory, WireId};

/// A gate on each bit of two words of this width.
pub(crate) fn on_both(
    nodes: &mut Vec<BitNode>,
    gate: TwoBits,
    w: WireId,
    a: WireId,
    b: WireId,
    width: u32,
) -> Result<(), NoMemory>
    ensures { OnOk result ((flat : TheFlat) → Adds flat nodes.old.items nodes.new.items
        (on_both (gate_of_two gate) (lowest flat w.number width) (lowest flat a.number width)
        (lowest flat b.number width))) }
{
    for place in 0..width {
        let x = BitName::Bit { wire: a, place };
        let y = BitName::Bit { wire: b, place };
        nodes.push(BitNode::Table {
            gate: gate.on(x, y),
            drives: BitName::Bit { wire: w, place },
        })?;
    }
    Ok(())
}

/// By a wire of one bit the first word or the second, both of this width.
pub(crate) fn choices(
    nodes: &mut Vec<BitNode>,
    w: WireId,
    c: WireId,
    a: WireId,
    b: WireId,
    width: u32,
) -> Result<(), NoMemory>
    ensures { OnOk result ((flat : TheFlat) → Adds flat nodes.old.items nodes.new.items
        (choices_by (lowest flat c.number 1) (lowest flat w.number width)
        (lowest flat a.number width) (lowest flat b.number width))) }
{
    let condition = BitName::Bit { wire: c, place: 0 };
    for place in 0..width {
        let x = BitName::Bit { wire: a, place };
        let y = BitName::Bit { wire: b, place };
        nodes.push(BitNode::Table {
            gate: BitGate::Choice(condition, x, y),
            drives: BitName::Bit { wire: w, place },
        })?;
    }
    Ok(())
}

/// A gate on all bits of a word of this width, one after another.
pub(crate) fn reduction(
    nodes: &mut Vec<BitNode>,
    gate: TwoBits,
    w: WireId,
    a: WireId,
    width: u32,
) -> Result<(), NoMemory>
    requires { 1 ≤ width }
    ensures { OnOk result ((flat : TheFlat) → Adds flat nodes.old.items nodes.new.items
        (reduction (gate_of_two gate) w.number (lowest flat w.number 1)
        (lowest flat a.number width))) }
{
    for place in 0..width {
        nodes.push(BitNode::Table {
            gate: folding(gate, w, a, place),
            drives: BitName::Further {
                wire: w,
                number: place,
            },
        })?;
    }
    nodes.push(BitNode::Table {
        gate: BitGate::Buffer(BitName::Further {
            wire: w,
            number: width - 1,
        }),
        drives: BitName::Bit { wire: w, place: 0 },
    })?;
    Ok(())
}
