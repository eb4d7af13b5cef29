//! `VcdOut`, the text of waves that is made event by event.
ghost use Rattle.std.specs.Prelude.{◌≡◌, ◌<◌, ◌^◌, ◌++◌, Bool, List, [], ◌∷◌, IfOk, OnOk, OnErr};
ghost use Rattle.chw_clock.specs.Histories.{HaveWidths};
ghost use Rattle.chw_clock.specs.declared.event.Event.{Event};
ghost use Rattle.waves.specs.Holding.{HoldsVcd, no_events, with_event};

use crate::event::put_event;
use crate::header::header_of;
use crate::values::{Values, no_values};
use chw_base::NoMemory;
use chw_bits::Bits;
use chw_clock::{Event, Ports};
use std::alloc::Global;
use std::marker::Model;

/// A printer of waves.
///
/// Contracts see it as the ports, how many events were printed, the values at the last time, and
/// the text.
#[derive(Drop)]
pub struct VcdOut<'a> {
    ports: &'a Ports,
    events: u64,
    last: Values,
    text: Vec<u8>,
}

impl<'a> Model for VcdOut<'a> {
    ghost use Rattle.waves.specs.Holding.{FitsTable, Printed};

    ghost Value = { Printed };

    ghost use Rattle.waves.specs.Views.{view_of};

    ghost view = { view_of };

    ghost invariant = { λ it. FitsTable it.ports.now it.events it.last };
}

impl<'a> VcdOut<'a> {
    /// The text before any event.
    pub fn open(alloc: Global, ports: &'a Ports) -> Result<VcdOut<'a>, NoMemory>
        ensures made { IfOk result (λ it. it ≡ no_events ports.now) }
        ensures holds { IfOk result (HoldsVcd [] []) }
    {
        let inputs = no_values(alloc, ports.inputs.as_slice())?;
        let outputs = no_values(alloc, ports.outputs.as_slice())?;
        let text = header_of(alloc, ports)?;
        Ok(VcdOut {
            ports,
            events: 0,
            last: Values {
                levels: Vec::new(alloc),
                inputs,
                outputs,
            },
            text,
        })
    }

    /// Adds an event, with the bits of all outputs just before its edges.
    ///
    /// Want of memory leaves the text and the values as they were.
    pub fn event(&mut self, alloc: Global, event: &Event, outputs: &[Bits]) -> Result<(), NoMemory>
        requires inputs { HaveWidths self.old.ports.inputs event.now.inputs }
        requires outputs { HaveWidths self.old.ports.outputs outputs.now }
        requires few { self.old.events < 2 ^ 63 }
        ensures made { OnOk result (self.new ≡ with_event event.now outputs.now self.old) }
        ensures holds { OnOk result ((events : List Event) (shown : List (List (List Bool)))
            → HoldsVcd events shown self.old
            → HoldsVcd (events ++ event.now ∷ []) (shown ++ outputs.now ∷ []) self.new) }
        ensures unchanged { OnErr result (self.new ≡ self.old) }
    {
        put_event(
            alloc,
            self.events,
            self.ports,
            &mut self.last,
            event,
            outputs,
            &mut self.text,
        )?;
        self.events += 1;
        Ok(())
    }

    /// The text of the events so far. It takes no memory.
    pub fn text(&self) -> &[u8]
        ensures { result.now ≡ self.now.text }
    {
        self.text.as_slice()
    }

    /// The text of the events, given back. It takes no memory.
    pub fn into_text(self) -> Vec<u8>
        ensures { result.items ≡ self.entry.text }
    {
        let VcdOut {
            ports: _,
            events: _,
            last: _,
            text,
        } = self;
        text
    }
}
