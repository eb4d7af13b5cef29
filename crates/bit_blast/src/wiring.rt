//! The nodes of constants, of what moves bits, and of gates on each bit of a word.
ghost use Rattle.std.specs.Prelude.{◌<◌, ◌^◌, length, OnOk};
ghost use Rattle.std.specs.List.{flat_map};
ghost use Rattle.netlist.specs.Sound.{Sound, width_of_all};
ghost use Rattle.netlist.specs.declared.net.Flat.{Flat as TheFlat};
ghost use Rattle.bit_laws.specs.Blast.{constants, on_each, word};
ghost use Rattle.bit_laws.specs.Gates.Gate.{buffer};
ghost use Rattle.bit_blast.specs.Adding.{Adds};
ghost use Rattle.bit_blast.specs.Gating.{gate_of_one};
ghost use Rattle.bit_blast.specs.Names.{end_of, lowest, names_of};

use crate::gates::{OneBit, constant_gate};
use crate::names::{Word, width_of};
use bit_nodes::{BitName, BitNode};
use chw_base::{NoMemory, WireId};
use netlist::Flat;

/// A gate on each of the lowest bits of a word, so many.
pub(crate) fn on_each(
    nodes: &mut Vec<BitNode>,
    gate: OneBit,
    outs: Word,
    xs: Word,
    width: u32,
) -> Result<(), NoMemory>
    requires outs { end_of outs width < 2 ^ 32 }
    requires xs { end_of xs width < 2 ^ 32 }
    ensures { OnOk result ((flat : TheFlat) → Adds flat nodes.old.items nodes.new.items
        (on_each (gate_of_one gate) (names_of flat outs width) (names_of flat xs width))) }
{
    for place in 0..width {
        nodes.push(BitNode::Table {
            gate: gate.on(xs.at(place)),
            drives: outs.at(place),
        })?;
    }
    Ok(())
}

/// These bits, the first the most significant.
pub(crate) fn constants(nodes: &mut Vec<BitNode>, w: WireId, bits: &[bool]) -> Result<(), NoMemory>
    requires { length bits.now < 2 ^ 32 }
    ensures { OnOk result ((flat : TheFlat) → Adds flat nodes.old.items nodes.new.items
        (constants (lowest flat w.number (length bits.now)) bits.now)) }
{
    let width = bits.len();
    for place in 0..width {
        nodes.push(BitNode::Table {
            gate: constant_gate(bits[width - 1 - place]),
            drives: BitName::Bit {
                wire: w,
                place: place as u32,
            },
        })?;
    }
    Ok(())
}

/// These wires side by side, the first the most significant.
pub(crate) fn joined(
    flat: &Flat,
    nodes: &mut Vec<BitNode>,
    w: WireId,
    parts: &[WireId],
) -> Result<(), NoMemory>
    requires sound { Sound flat.now }
    requires within { width_of_all flat.now.widths parts.now < 2 ^ 32 }
    ensures { OnOk result (Adds flat.now nodes.old.items nodes.new.items
        (on_each buffer (lowest flat.now w.number (width_of_all flat.now.widths parts.now))
        (flat_map (λ p. word flat.now p.number) parts.now))) }
{
    let mut low = 0;
    for i in 0..parts.len() {
        let part = parts[parts.len() - 1 - i];
        let width = width_of(flat, part);
        on_each(
            nodes,
            OneBit::Same,
            Word::Part(w, low),
            Word::Part(part, 0),
            width,
        )?;
        low += width;
    }
    Ok(())
}
