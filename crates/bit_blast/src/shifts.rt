//! The nodes of shifts: a stage for each bit of the amount.
ghost use Rattle.std.specs.Prelude.{◌≡◌, ◌<◌, ◌≤◌, ◌+◌, ◌-◌, ◌^◌, [], ◌∷◌, ◌++◌, nat_lt};
ghost use Rattle.std.specs.Prelude.{if◌then◌else◌, IfOk, OnOk};
ghost use Rattle.chw_base.specs.declared.limits.TheConstants.{WIRE_BITS};
ghost use Rattle.netlist.specs.declared.net.Flat.{Flat as TheFlat};
ghost use Rattle.netlist.specs.declared.net.Op2.TheVariants.{Shl, Shr, Sar};
ghost use Rattle.bit_laws.specs.BitNames.{further};
ghost use Rattle.bit_laws.specs.Blast.{binary_nodes, choices, on_each, shift_nodes, shifted_names};
ghost use Rattle.bit_laws.specs.Gates.Gate.{buffer};
ghost use Rattle.bit_nodes.specs.Standing.{name_of};
ghost use Rattle.bit_nodes.specs.declared.nodes.BitName.TheVariants.{Further};
ghost use Rattle.bit_nodes.specs.declared.nodes.BitNode.TheVariants.{Table};
ghost use Rattle.bit_blast.specs.Adding.{Adds};
ghost use Rattle.bit_blast.specs.Names.{bit_of, by_places, end_of, lowest, names_of};
ghost use Rattle.bit_blast.specs.Shifts.{moved_bit, mover};

use crate::gates::OneBit;
use crate::names::Word;
use crate::wiring::on_each;
use bit_nodes::{BitGate, BitName, BitNode};
use chw_base::{NoMemory, WireId};

/// Which way bits move: to greater places, or to lower ones.
#[derive(Clone, Copy, Debug)]
pub(crate) enum Way {
    Up,
    Down,
}

/// A move of a word of this width by so many places. The filling comes where no bit came to.
#[derive(Clone, Copy, Debug)]
pub(crate) struct Move {
    pub way: Way,
    pub filling: BitName,
    pub places: u32,
    pub width: u32,
}

/// A shift to the left of words of this width, by a number of so many bits.
pub(crate) fn shift_left(
    nodes: &mut Vec<BitNode>,
    w: WireId,
    a: WireId,
    b: WireId,
    width: u32,
    amount: u32,
) -> Result<(), NoMemory>
    requires some { 1 ≤ width }
    requires within { width ≤ WIRE_BITS }
    requires amount { amount ≤ WIRE_BITS }
    ensures { OnOk result ((flat : TheFlat) → Adds flat nodes.old.items nodes.new.items
        (binary_nodes Shl w.number (lowest flat w.number width) (lowest flat a.number width)
        (lowest flat b.number amount))) }
{
    fill(nodes, w, BitGate::Never)?;
    shift(nodes, w, Way::Up, a, b, width, amount)?;
    Ok(())
}

/// A shift to the right, filled up with zeros.
pub(crate) fn shift_right(
    nodes: &mut Vec<BitNode>,
    w: WireId,
    a: WireId,
    b: WireId,
    width: u32,
    amount: u32,
) -> Result<(), NoMemory>
    requires some { 1 ≤ width }
    requires within { width ≤ WIRE_BITS }
    requires amount { amount ≤ WIRE_BITS }
    ensures { OnOk result ((flat : TheFlat) → Adds flat nodes.old.items nodes.new.items
        (binary_nodes Shr w.number (lowest flat w.number width) (lowest flat a.number width)
        (lowest flat b.number amount))) }
{
    fill(nodes, w, BitGate::Never)?;
    shift(nodes, w, Way::Down, a, b, width, amount)?;
    Ok(())
}

/// A shift to the right, filled up with the sign.
pub(crate) fn signed_shift_right(
    nodes: &mut Vec<BitNode>,
    w: WireId,
    a: WireId,
    b: WireId,
    width: u32,
    amount: u32,
) -> Result<(), NoMemory>
    requires some { 1 ≤ width }
    requires within { width ≤ WIRE_BITS }
    requires amount { amount ≤ WIRE_BITS }
    ensures { OnOk result ((flat : TheFlat) → Adds flat nodes.old.items nodes.new.items
        (binary_nodes Sar w.number (lowest flat w.number width) (lowest flat a.number width)
        (lowest flat b.number amount))) }
{
    let sign = BitName::Bit {
        wire: a,
        place: width - 1,
    };
    fill(nodes, w, BitGate::Buffer(sign))?;
    shift(nodes, w, Way::Down, a, b, width, amount)?;
    Ok(())
}

// The further node 0, with which the stages fill up.
fn fill(nodes: &mut Vec<BitNode>, w: WireId, gate: BitGate) -> Result<(), NoMemory>
    ensures { OnOk result (nodes.new.items
        ≡ nodes.old.items ++ Table gate (Further w 0) ∷ []) }
{
    nodes.push(BitNode::Table {
        gate,
        drives: BitName::Further { wire: w, number: 0 },
    })?;
    Ok(())
}

// The stages, and the buffers behind them.
fn shift(
    nodes: &mut Vec<BitNode>,
    w: WireId,
    way: Way,
    a: WireId,
    b: WireId,
    width: u32,
    amount: u32,
) -> Result<(), NoMemory>
    requires some { 1 ≤ width }
    requires within { width ≤ WIRE_BITS }
    requires amount { amount ≤ WIRE_BITS }
    ensures { OnOk result ((flat : TheFlat) → Adds flat nodes.old.items nodes.new.items
        (shift_nodes (mover way (further w.number 0)) w.number (lowest flat a.number width)
        (lowest flat b.number amount)
        ++ on_each buffer (lowest flat w.number width) (shifted_names w.number
        (lowest flat a.number width) (lowest flat b.number amount)))) }
{
    let bits = stages(nodes, w, way, a, b, width, amount)?;
    on_each(nodes, OneBit::Same, Word::Part(w, 0), bits, width)?;
    Ok(())
}

// The stages, each of which moves by twice as many places as the one before, or not; and the bits
// behind the last one. A move by as many places as the word has leaves the filling alone.
fn stages(
    nodes: &mut Vec<BitNode>,
    w: WireId,
    way: Way,
    a: WireId,
    b: WireId,
    width: u32,
    amount: u32,
) -> Result<Word, NoMemory>
    requires some { 1 ≤ width }
    requires within { width ≤ WIRE_BITS }
    requires amount { amount ≤ WIRE_BITS }
    ensures made { IfOk result (λ _. (flat : TheFlat) → Adds flat nodes.old.items nodes.new.items
        (shift_nodes (mover way (further w.number 0)) w.number (lowest flat a.number width)
        (lowest flat b.number amount))) }
    ensures named { IfOk result (λ bits. (flat : TheFlat) → names_of flat bits width
        ≡ shifted_names w.number (lowest flat a.number width) (lowest flat b.number amount)) }
    ensures small { IfOk result (λ bits. end_of bits width < 2 ^ 32) }
{
    let mut bits = Word::Part(a, 0);
    let mut places = 1;
    let mut number = 1;
    for turn in 0..amount {
        let by = BitName::Bit {
            wire: b,
            place: turn,
        };
        let outs = Word::Furthers(w, number);
        let filling = BitName::Further { wire: w, number: 0 };
        let moved = Move {
            way,
            filling,
            places,
            width,
        };
        stage(nodes, by, outs, moved, bits)?;
        bits = outs;
        places = (2 * places).min(width);
        number += width;
    }
    Ok(bits)
}

// A stage: by one bit each bit is that of the moved word, or that of the word.
fn stage(
    nodes: &mut Vec<BitNode>,
    by: BitName,
    outs: Word,
    moved: Move,
    bits: Word,
) -> Result<(), NoMemory>
    requires places { moved.places ≤ moved.width }
    requires outs { end_of outs moved.width < 2 ^ 32 }
    requires bits { end_of bits moved.width < 2 ^ 32 }
    ensures { OnOk result ((flat : TheFlat) → Adds flat nodes.old.items nodes.new.items
        (choices (name_of flat by) (names_of flat outs moved.width)
        (by_places (λ j. name_of flat (moved_bit moved bits j)) moved.width)
        (names_of flat bits moved.width))) }
{
    for place in 0..moved.width {
        let came = moved_at(moved, bits, place);
        let own = bits.at(place);
        let out = outs.at(place);
        nodes.push(BitNode::Table {
            gate: BitGate::Choice(by, came, own),
            drives: out,
        })?;
    }
    Ok(())
}

// The bit that comes to a place.
fn moved_at(moved: Move, bits: Word, place: u32) -> BitName
    requires places { moved.places ≤ moved.width }
    requires bits { end_of bits moved.width < 2 ^ 32 }
    requires place { place < moved.width }
    ensures { result ≡ moved_bit moved bits place }
{
    match moved.way {
        Way::Up => from_below(moved.filling, moved.places, bits, place),
        Way::Down => from_above(moved.filling, moved.places, moved.width, bits, place),
    }
}

// What comes to a place from so many places below it.
fn from_below(filling: BitName, places: u32, bits: Word, place: u32) -> BitName
    requires { end_of bits place < 2 ^ 32 }
    ensures { result ≡ (if nat_lt place places then filling else bit_of bits (place - places)) }
{
    if place < places {
        filling
    } else {
        bits.at(place - places)
    }
}

// What comes to a place from so many places above it, in a word of this width.
fn from_above(filling: BitName, places: u32, width: u32, bits: Word, place: u32) -> BitName
    requires places { places ≤ width }
    requires bits { end_of bits width < 2 ^ 32 }
    ensures { result
        ≡ (if nat_lt place (width - places) then bit_of bits (place + places) else filling) }
{
    if place < width - places {
        bits.at(place + places)
    } else {
        filling
    }
}
