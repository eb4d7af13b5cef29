//! What is known of the bits of a net at an event.

use bit_nodes::{BitGate, BitName, BitNode};
use chw_base::{NoMemory, Or, WireId, narrow};
use chw_bits::Bits;
use chw_clock::Event;
use indexmap::IndexMap;
use netlist::Flat;
use row_tables::Unread;
use std::alloc::Global;

/// The most bits of a word that are shown.
const SHOWN: usize = 10_000;

// A number for a name: its kind, its wire, port or domain, and its place.
fn number_of(kind: u64, which: u32, place: u32) -> u64 {
    u64::from(which)
        .wrapping_mul(4_294_967_296)
        .wrapping_add(u64::from(place))
        .wrapping_mul(4)
        .wrapping_add(kind)
}

fn key_of(name: BitName) -> u64 {
    match name {
        BitName::Bit { wire, place } => number_of(0, wire.number, place),
        BitName::Further { wire, number } => number_of(1, wire.number, number),
        BitName::Output { port, place } => number_of(2, port, place),
        BitName::Reset { domain } => number_of(3, domain.number, 0),
    }
}

// What gates of two bits give.

fn both((a, b): (bool, bool)) -> bool {
    a && b
}

fn either((a, b): (bool, bool)) -> bool {
    a || b
}

fn differing((a, b): (bool, bool)) -> bool {
    a != b
}

fn cleared((a, r): (bool, bool)) -> bool {
    a && !r
}

// What gates of three bits give.

fn odd((a, b, c): (bool, bool, bool)) -> bool {
    if a == b { c } else { !c }
}

fn most((a, b, c): (bool, bool, bool)) -> bool {
    if a == b { a } else { c }
}

fn chosen((c, a, b): (bool, bool, bool)) -> bool {
    if c { a } else { b }
}

fn less((a, b, p): (bool, bool, bool)) -> bool {
    if a == b { p } else { b }
}

fn added((p, r, q): (bool, bool, bool)) -> bool {
    p || (r && q)
}

/// The names whose bits are known at an event.
#[derive(Drop)]
pub(crate) struct Known<'f> {
    flat: &'f Flat,
    bits: IndexMap<u64, bool>,
}

impl<'f> Known<'f> {
    /// Nothing is known.
    pub(crate) fn new(alloc: Global, flat: &'f Flat) -> Known<'f> {
        Known {
            flat,
            bits: IndexMap::new(alloc),
        }
    }

    /// The bit of a name, where it is known.
    pub(crate) fn of(&self, name: BitName) -> Option<bool> {
        self.bits.get(&key_of(name)).copied()
    }

    /// The name has this bit.
    pub(crate) fn put(&mut self, name: BitName, bit: bool) -> Result<(), NoMemory> {
        self.bits.insert(key_of(name), bit)?;
        Ok(())
    }

    // The number that the bits of a wire mean, where there are few of them.
    fn number(&self, wire: WireId) -> Option<u32> {
        let width = *self.flat.widths.as_slice().get(wire.number as usize)?;
        if width > 32 {
            return None;
        }
        let mut number: u32 = 0;
        for place in (0..width).rev() {
            let bit = self.of(BitName::Bit { wire, place })?;
            number = number.wrapping_mul(2).wrapping_add(u32::from(bit));
        }
        Some(number)
    }

    // The bits of two names, where both are known.
    fn two(&self, a: BitName, b: BitName) -> Option<(bool, bool)> {
        Some((self.of(a)?, self.of(b)?))
    }

    // The bits of three names, where all are known.
    fn three(&self, a: BitName, b: BitName, c: BitName) -> Option<(bool, bool, bool)> {
        Some((self.of(a)?, self.of(b)?, self.of(c)?))
    }

    // What a gate of no bits or of one gives, where what it reads is known.
    fn small_gate(&self, gate: BitGate) -> Option<bool> {
        match gate {
            BitGate::Never => Some(false),
            BitGate::Always => Some(true),
            BitGate::Buffer(a) => self.of(a),
            BitGate::Inverse(a) => Some(!self.of(a)?),
            _ => None,
        }
    }

    // What a gate of two bits gives.
    fn gate_of_two(&self, gate: BitGate) -> Option<bool> {
        match gate {
            BitGate::Both(a, b) => Some(both(self.two(a, b)?)),
            BitGate::Either(a, b) => Some(either(self.two(a, b)?)),
            BitGate::Differing(a, b) => Some(differing(self.two(a, b)?)),
            BitGate::Alike(a, b) => Some(!differing(self.two(a, b)?)),
            BitGate::Cleared(a, r) => Some(cleared(self.two(a, r)?)),
            _ => None,
        }
    }

    // What a gate of three bits gives.
    fn gate_of_three(&self, gate: BitGate) -> Option<bool> {
        match gate {
            BitGate::Odd(a, b, c) => Some(odd(self.three(a, b, c)?)),
            BitGate::Most(a, b, c) => Some(most(self.three(a, b, c)?)),
            BitGate::Choice(c, a, b) => Some(chosen(self.three(c, a, b)?)),
            BitGate::Less(a, b, p) => Some(less(self.three(a, b, p)?)),
            BitGate::Added(p, r, q) => Some(added(self.three(p, r, q)?)),
            _ => None,
        }
    }

    // What a gate gives.
    fn gate(&self, gate: BitGate) -> Option<bool> {
        match gate {
            BitGate::Written { enable, place, at } => {
                let (enable, place) = (self.number(enable)?, self.number(place)?);
                Some(enable == 1 && place == at)
            }
            BitGate::Read { address, at } => Some(self.number(address)? == at),
            BitGate::Odd(..)
            | BitGate::Most(..)
            | BitGate::Choice(..)
            | BitGate::Less(..)
            | BitGate::Added(..) => self.gate_of_three(gate),
            BitGate::Never | BitGate::Always | BitGate::Buffer(_) | BitGate::Inverse(_) => {
                self.small_gate(gate)
            }
            _ => self.gate_of_two(gate),
        }
    }

    // The bits of an input, of which the first is the most significant.
    fn put_word(&mut self, wire: WireId, bits: &Bits) -> Result<(), NoMemory> {
        for (place, bit) in bits.as_slice().iter().rev().enumerate() {
            let place = narrow(place)?;
            self.put(BitName::Bit { wire, place }, *bit)?;
        }
        Ok(())
    }

    /// The bits of the inputs and the resets at an event.
    pub(crate) fn enter(&mut self, event: &Event) -> Result<(), NoMemory> {
        for (number, bits) in event.inputs.as_slice().iter().enumerate() {
            let number = narrow(number)?;
            self.put_word(WireId { number }, bits)?;
        }
        for domain in self.flat.ports.resets.as_slice() {
            let domain = *domain;
            let bit = event.resets.as_slice().contains(&domain);
            self.put(BitName::Reset { domain }, bit)?;
        }
        Ok(())
    }

    // One pass over the tables: each whose reads are known gives its bit.
    fn pass(&mut self, nodes: &[BitNode]) -> Result<(), NoMemory> {
        for node in nodes {
            let BitNode::Table { gate, drives } = *node else {
                continue;
            };
            if let Some(bit) = self.gate(gate) {
                self.put(drives, bit)?;
            }
        }
        Ok(())
    }

    /// Passes until no further name is known.
    pub(crate) fn settle(&mut self, nodes: &[BitNode]) -> Result<(), NoMemory> {
        for _pass in 0..nodes.len() {
            let before = self.bits.len();
            self.pass(nodes)?;
            if self.bits.len() == before {
                break;
            }
        }
        Ok(())
    }

    // The bits of the output of this number.
    fn output(&self, alloc: Global, port: u32, width: u32) -> Result<Bits, Or<Unread>> {
        let mut bits = Vec::new(alloc);
        for place in (0..width).rev() {
            let Some(bit) = self.of(BitName::Output { port, place }) else {
                return Err(Or::Fault(Unread));
            };
            bits.push(bit)?;
        }
        if bits.len() > SHOWN {
            return Err(Or::Fault(Unread));
        }
        Ok(Bits::of_list(bits))
    }

    /// The bits of all outputs.
    pub(crate) fn outputs(&self, alloc: Global) -> Result<Vec<Bits>, Or<Unread>> {
        let mut outputs = Vec::new(alloc);
        for (number, port) in self.flat.ports.outputs.as_slice().iter().enumerate() {
            outputs.push(self.output(alloc, narrow(number)?, port.width)?)?;
        }
        Ok(outputs)
    }
}
