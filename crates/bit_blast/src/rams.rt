//! The nodes of RAMs: two gates for each word, and three nodes for each of its bits.
ghost use Rattle.std.specs.Prelude.{◌≡◌, ◌+◌, ◌*◌, ◌<◌, ◌≤◌, ◌^◌, length};
ghost use Rattle.std.specs.Prelude.{IfOk, OnOk};
ghost use Rattle.std.specs.List.{AllByRecursion};
ghost use Rattle.chw_base.specs.declared.limits.TheConstants.{RAM_WORDS, WIRE_BITS};
ghost use Rattle.netlist.specs.Sound.{FitsCell, Sound};
ghost use Rattle.netlist.specs.declared.net.Cell.TheVariants.{Ram};
ghost use Rattle.netlist.specs.declared.net.Flat.{Flat as TheFlat};
ghost use Rattle.bit_laws.specs.BitNames.{furthers};
ghost use Rattle.bit_laws.specs.Bitnet.{clock_of};
ghost use Rattle.bit_laws.specs.Blast.{all_zeros, constants, nodes_of, ram_shown, ram_words};
ghost use Rattle.bit_laws.specs.Blast.{register_nodes, word_nodes};
ghost use Rattle.bit_nodes.specs.Standing.{name_of};
ghost use Rattle.bit_blast.specs.Adding.{Adds};
ghost use Rattle.bit_blast.specs.Latches.{addressed, kept_bit, names_read};
ghost use Rattle.bit_blast.specs.Names.{lowest};
ghost use Rattle.bit_blast.specs.Numbering.{nth, spaced};

use crate::names::width_of;
use crate::numbers::Numbers;
use bit_nodes::{BitGate, BitName, BitNode};
use chw_base::{DomId, NoMemory, WireId};
use chw_clock::Bits;
use netlist::{Flat, RamIn};

/// What the words of a RAM have in common.
#[derive(Clone, Copy, Debug)]
pub(crate) struct Memory {
    pub wire: WireId,
    pub domain: DomId,
    pub inputs: RamIn,
    pub width: u32,
}

/// A RAM.
pub(crate) fn ram(
    flat: &Flat,
    nodes: &mut Vec<BitNode>,
    w: WireId,
    domain: DomId,
    words: &[Bits],
    inputs: &RamIn,
) -> Result<(), NoMemory>
    requires sound { Sound flat.now }
    requires fits { FitsCell (length flat.now.ports.domains) flat.now.widths
        (Ram w domain words.now inputs.now) }
    ensures { OnOk result (Adds flat.now nodes.old.items nodes.new.items
        (nodes_of flat.now (Ram w domain words.now inputs.now))) }
{
    let width = width_of(flat, w);
    let memory = Memory {
        wire: w,
        domain,
        inputs: *inputs,
        width,
    };
    zeros(nodes, w, width)?;
    let shown = all_words(nodes, memory, words)?;
    shown_latches(nodes, w, domain, shown, width)?;
    Ok(())
}

// So many zeros, which are shown where no word is read.
fn zeros(nodes: &mut Vec<BitNode>, w: WireId, width: u32) -> Result<(), NoMemory>
    ensures { OnOk result ((flat : TheFlat) → Adds flat nodes.old.items nodes.new.items
        (constants (furthers w.number 0 width) (all_zeros width))) }
{
    for place in 0..width {
        nodes.push(BitNode::Table {
            gate: BitGate::Never,
            drives: BitName::Further {
                wire: w,
                number: place,
            },
        })?;
    }
    Ok(())
}

// The nodes of all words, and the numbers of what is shown behind them.
fn all_words(nodes: &mut Vec<BitNode>, memory: Memory, words: &[Bits]) -> Result<Numbers, NoMemory>
    requires within { memory.width ≤ WIRE_BITS }
    requires few { length words.now ≤ RAM_WORDS }
    requires wide { AllByRecursion (λ bits. length bits ≡ memory.width) words.now }
    ensures made { IfOk result (λ _. (flat : TheFlat) → Adds flat nodes.old.items nodes.new.items
        (ram_words memory.wire.number memory.width memory.width 0
        (clock_of flat.ports memory.domain) (names_read flat memory.inputs memory.width)
        (furthers memory.wire.number 0 memory.width) words.now)) }
    ensures shown { IfOk result (λ shown. spaced memory.wire.number shown memory.width
        ≡ ram_shown memory.wire.number memory.width memory.width
        (furthers memory.wire.number 0 memory.width) words.now) }
    ensures small { IfOk result (λ shown. nth shown memory.width < 2 ^ 32) }
{
    let mut x = memory.width;
    let mut shown = Numbers::Each(0);
    for at in 0..words.len() {
        word(nodes, memory, at as u32, x, shown, &words[at])?;
        shown = Numbers::EachThird(x + 4);
        x += 2 + 3 * memory.width;
    }
    Ok(shown)
}

// The nodes of the word at an address, of which the first has this number.
fn word(
    nodes: &mut Vec<BitNode>,
    memory: Memory,
    at: u32,
    x: u32,
    shown: Numbers,
    bits: &Bits,
) -> Result<(), NoMemory>
    requires wide { length bits.now ≡ memory.width }
    requires numbers { x + 3 * memory.width + 4 < 2 ^ 32 }
    requires shown { nth shown memory.width < 2 ^ 32 }
    ensures { OnOk result ((flat : TheFlat) → Adds flat nodes.old.items nodes.new.items
        (addressed flat memory at x shown bits.now)) }
{
    nodes.push(BitNode::Table {
        gate: BitGate::Written {
            enable: memory.inputs.enable,
            place: memory.inputs.place,
            at,
        },
        drives: BitName::Further {
            wire: memory.wire,
            number: x,
        },
    })?;
    nodes.push(BitNode::Table {
        gate: BitGate::Read {
            address: memory.inputs.read,
            at,
        },
        drives: BitName::Further {
            wire: memory.wire,
            number: x + 1,
        },
    })?;
    bits_of_word(nodes, memory, x, shown, bits)?;
    Ok(())
}

// The nodes of the bits of a word.
fn bits_of_word(
    nodes: &mut Vec<BitNode>,
    memory: Memory,
    x: u32,
    shown: Numbers,
    bits: &Bits,
) -> Result<(), NoMemory>
    requires wide { length bits.now ≡ memory.width }
    requires numbers { x + 3 * memory.width + 4 < 2 ^ 32 }
    requires shown { nth shown memory.width < 2 ^ 32 }
    ensures { OnOk result ((flat : TheFlat) → Adds flat nodes.old.items nodes.new.items
        (word_nodes memory.wire.number x (clock_of flat.ports memory.domain)
        (spaced memory.wire.number shown memory.width)
        (lowest flat memory.inputs.value.number memory.width) bits.now)) }
{
    let width = memory.width;
    for place in 0..width {
        let so_far = BitName::Further {
            wire: memory.wire,
            number: shown.at(place),
        };
        let value = BitName::Bit {
            wire: memory.inputs.value,
            place,
        };
        let bit = bits.at(width - 1 - place);
        one_bit(nodes, memory, x, x + (3 * place + 2), so_far, value, bit)?;
    }
    Ok(())
}

// The nodes of one bit of a word: its latch has the number q, and x is the word's first number.
fn one_bit(
    nodes: &mut Vec<BitNode>,
    memory: Memory,
    x: u32,
    q: u32,
    so_far: BitName,
    value: BitName,
    bit: bool,
) -> Result<(), NoMemory>
    requires small { q + 2 < 2 ^ 32 }
    requires below { x < q }
    ensures { OnOk result ((flat : TheFlat) → Adds flat nodes.old.items nodes.new.items
        (kept_bit memory.wire.number x q (clock_of flat.ports memory.domain)
        (name_of flat so_far) (name_of flat value) bit)) }
{
    let wire = memory.wire;
    let kept = BitName::Further { wire, number: q };
    let next = BitName::Further {
        wire,
        number: q + 1,
    };
    let written = BitName::Further { wire, number: x };
    let read = BitName::Further {
        wire,
        number: x + 1,
    };
    nodes.push(BitNode::Latch {
        takes: next,
        drives: kept,
        domain: memory.domain,
        initial: bit,
    })?;
    nodes.push(BitNode::Table {
        gate: BitGate::Choice(written, value, kept),
        drives: next,
    })?;
    nodes.push(BitNode::Table {
        gate: BitGate::Added(so_far, read, kept),
        drives: BitName::Further {
            wire,
            number: q + 2,
        },
    })?;
    Ok(())
}

// The latches that show what was read, at first zeros.
fn shown_latches(
    nodes: &mut Vec<BitNode>,
    w: WireId,
    domain: DomId,
    shown: Numbers,
    width: u32,
) -> Result<(), NoMemory>
    requires { nth shown width < 2 ^ 32 }
    ensures { OnOk result ((flat : TheFlat) → Adds flat nodes.old.items nodes.new.items
        (register_nodes (clock_of flat.ports domain) (lowest flat w.number width)
        (spaced w.number shown width) (all_zeros width))) }
{
    for place in 0..width {
        nodes.push(BitNode::Latch {
            takes: BitName::Further {
                wire: w,
                number: shown.at(place),
            },
            drives: BitName::Bit { wire: w, place },
            domain,
            initial: false,
        })?;
    }
    Ok(())
}
