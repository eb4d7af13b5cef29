//! Nets of single bits, evaluated by plain search: at each event a table gives its bit as soon as
//! all that it reads are known.
//!
//! What a gate gives is said here anew, and not by the rows of its table.

use crate::known::Known;
use bit_nodes::{BitName, BitNode};
use chw_base::{DomId, NoMemory, Or, narrow};
use chw_clock::Event;
use netlist::Flat;
use row_tables::Unread;
use std::alloc::Global;
use stimulus::print_line;

/// A latch, and the bit that it holds.
#[derive(Clone, Copy)]
struct Held {
    takes: BitName,
    drives: BitName,
    domain: DomId,
    bit: bool,
}

// The latches with their initial bits.
fn latches(alloc: Global, nodes: &[BitNode]) -> Result<Vec<Held>, NoMemory> {
    let mut held = Vec::new(alloc);
    for node in nodes {
        if let BitNode::Latch {
            takes,
            drives,
            domain,
            initial,
        } = *node
        {
            held.push(Held {
                takes,
                drives,
                domain,
                bit: initial,
            })?;
        }
    }
    Ok(held)
}

/// A net of single bits that is stepped.
#[derive(Drop)]
struct Stepped<'n> {
    flat: &'n Flat,
    nodes: &'n [BitNode],
    held: Vec<Held>,
}

impl<'n> Stepped<'n> {
    // All that is known at an event.
    fn known_at(&self, alloc: Global, event: &Event) -> Result<Known<'n>, NoMemory> {
        let mut known = Known::new(alloc, self.flat);
        known.enter(event)?;
        for latch in &self.held {
            known.put(latch.drives, latch.bit)?;
        }
        known.settle(self.nodes)?;
        Ok(known)
    }

    // The latches of the domains that tick take their bits.
    fn take(&mut self, event: &Event, known: &Known<'_>) -> Result<(), Or<Unread>> {
        for latch in self.held.iter_mut() {
            if event.ticks.as_slice().contains(&latch.domain) {
                let Some(bit) = known.of(latch.takes) else {
                    return Err(Or::Fault(Unread));
                };
                latch.bit = bit;
            }
        }
        Ok(())
    }

    // Appends the line of the event of this number, and goes on to the next one.
    fn step(
        &mut self,
        alloc: Global,
        number: u32,
        event: &Event,
        lines: &mut Vec<u8>,
    ) -> Result<(), Or<Unread>> {
        let known = self.known_at(alloc, event)?;
        let outputs = known.outputs(alloc)?;
        print_line(alloc, number, &self.flat.ports, event, &outputs, lines)?;
        self.take(event, &known)
    }
}

/// The lines of the outputs of these nodes at these events.
pub(crate) fn bit_lines(
    alloc: Global,
    flat: &Flat,
    nodes: &[BitNode],
    events: &[Event],
) -> Result<Vec<u8>, Or<Unread>> {
    let mut stepped = Stepped {
        flat,
        nodes,
        held: latches(alloc, nodes)?,
    };
    let mut lines = Vec::new(alloc);
    for (number, event) in events.iter().enumerate() {
        stepped.step(alloc, narrow(number)?, event, &mut lines)?;
    }
    Ok(lines)
}
