//! The nodes of registers.
ghost use Rattle.std.specs.Prelude.{◌≡◌, if◌then◌else◌, length, OnOk};
ghost use Rattle.netlist.specs.declared.net.Flat.{Flat as TheFlat};
ghost use Rattle.netlist.specs.Sound.{FitsCell, Sound};
ghost use Rattle.netlist.specs.declared.net.Cell.TheVariants.{Reg};
ghost use Rattle.bit_laws.specs.Bitnet.{clock_of, reset_of};
ghost use Rattle.bit_laws.specs.Blast.{nodes_of, register_nodes, reset_nodes};
ghost use Rattle.bit_nodes.specs.declared.nodes.BitGate.TheVariants.{Cleared, Either};
ghost use Rattle.bit_blast.specs.Adding.{Adds};
ghost use Rattle.bit_blast.specs.Latches.{held_latch};
ghost use Rattle.bit_blast.specs.Names.{lowest};

use bit_nodes::{BitGate, BitName, BitNode};
use chw_base::{DomId, NoMemory, WireId};
use chw_clock::Bits;
use netlist::Flat;

/// A register.
pub(crate) fn register(
    flat: &Flat,
    nodes: &mut Vec<BitNode>,
    w: WireId,
    domain: DomId,
    initial: &Bits,
    a: WireId,
) -> Result<(), NoMemory>
    requires sound { Sound flat.now }
    requires fits { FitsCell (length flat.now.ports.domains) flat.now.widths
        (Reg w domain initial.now a) }
    ensures { OnOk result (Adds flat.now nodes.old.items nodes.new.items
        (nodes_of flat.now (Reg w domain initial.now a))) }
{
    if flat.ports.has_reset(domain.number as usize) {
        held_latches(nodes, w, domain, initial, a)?;
        return Ok(());
    }
    latches(nodes, w, domain, initial, a)?;
    Ok(())
}

// The latches of a register without a reset.
fn latches(
    nodes: &mut Vec<BitNode>,
    w: WireId,
    domain: DomId,
    bits: &Bits,
    a: WireId,
) -> Result<(), NoMemory>
    ensures { OnOk result ((flat : TheFlat) → Adds flat nodes.old.items nodes.new.items
        (register_nodes (clock_of flat.ports domain) (lowest flat w.number (length bits.now))
        (lowest flat a.number (length bits.now)) bits.now)) }
{
    let width = bits.len();
    for place in 0..width {
        nodes.push(BitNode::Latch {
            takes: BitName::Bit { wire: a, place },
            drives: BitName::Bit { wire: w, place },
            domain,
            initial: bits.at(width - 1 - place),
        })?;
    }
    Ok(())
}

// The latches of one with a reset, each behind its gate.
fn held_latches(
    nodes: &mut Vec<BitNode>,
    w: WireId,
    domain: DomId,
    bits: &Bits,
    a: WireId,
) -> Result<(), NoMemory>
    ensures { OnOk result ((flat : TheFlat) → Adds flat nodes.old.items nodes.new.items
        (reset_nodes w.number (clock_of flat.ports domain) (reset_of flat.ports domain)
        (lowest flat w.number (length bits.now)) (lowest flat a.number (length bits.now))
        bits.now)) }
{
    let width = bits.len();
    for place in 0..width {
        held_latch(nodes, w, domain, a, place, bits.at(width - 1 - place))?;
    }
    Ok(())
}

// A latch behind a gate that gives the initial bit while the reset is asserted.
fn held_latch(
    nodes: &mut Vec<BitNode>,
    w: WireId,
    domain: DomId,
    a: WireId,
    place: u32,
    bit: bool,
) -> Result<(), NoMemory>
    ensures { OnOk result ((flat : TheFlat) → Adds flat nodes.old.items nodes.new.items
        (held_latch flat w.number a.number domain place bit)) }
{
    let held = BitName::Further {
        wire: w,
        number: place,
    };
    let takes = BitName::Bit { wire: a, place };
    nodes.push(BitNode::Table {
        gate: holding(bit, takes, BitName::Reset { domain }),
        drives: held,
    })?;
    nodes.push(BitNode::Latch {
        takes: held,
        drives: BitName::Bit { wire: w, place },
        domain,
        initial: bit,
    })?;
    Ok(())
}

// The gate that gives the initial bit while the reset is set.
fn holding(bit: bool, takes: BitName, reset: BitName) -> BitGate
    ensures { result ≡ (if bit then Either takes reset else Cleared takes reset) }
{
    if bit {
        BitGate::Either(takes, reset)
    } else {
        BitGate::Cleared(takes, reset)
    }
}
