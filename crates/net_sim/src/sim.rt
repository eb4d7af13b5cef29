//! `Sim`, the table in which a flat net is stepped.
ghost use Rattle.std.specs.Prelude.{◌≡◌, ◌<◌, List, [], ◌∷◌, length, IfOk};
ghost use Rattle.chw_clock.specs.Histories.{HaveWidths};
ghost use Rattle.chw_clock.specs.declared.event.Event.{Event};
ghost use Rattle.net_sim.specs.Sims.{IsSettledFor, IsTable, SimGives, SimShows, SimStandsFor};
ghost use Rattle.net_sim.specs.Sims.{value_of};
ghost use Rattle.netlist.specs.Orders.{IsOrder};
ghost use Rattle.netlist.specs.Sound.{Sound};

use crate::inputs::enter;
use crate::keepers::Keepers;
use crate::memory::Memory;
use crate::opening::{first_memories, first_outputs, first_words, list_keepers, zero_words};
use crate::outputs::put_outputs;
use crate::planning::steps_of;
use crate::room::ROOM;
use crate::step::Step;
use crate::tick::advance;
use crate::word::Word;
use crate::words::bits_at;
use chw_base::{NoMemory, WireId};
use chw_bits::Bits;
use chw_clock::Event;
use netlist::{Flat, Order};
use std::alloc::Global;

/// A flat net with the bits of its wires and the words of its RAMs.
#[derive(Drop)]
pub struct Sim<'a> {
    pub(crate) flat: &'a Flat,
    pub(crate) order: &'a Order,
    /// What settles the wires of the cells, in their order.
    pub(crate) steps: Vec<Step>,
    /// The places of all registers and RAMs, by their domains.
    pub(crate) keepers: Vec<Keepers>,
    /// The words of the wires, by their numbers.
    pub(crate) words: Vec<Word>,
    /// What registers and RAMs are to show after the event, by the wires that they drive.
    pub(crate) next: Vec<Word>,
    /// The words of RAMs, by the wires that they drive.
    pub(crate) memories: Vec<Memory>,
    /// Room for the bits of wide words.
    pub(crate) room: Vec<bool>,
    /// The bits of the outputs, by their places among the outputs.
    pub(crate) outputs: Vec<Bits>,
}

impl<'a> Sim<'a> {
    /// A table of a sound flat net and an order of its cells, before any event.
    pub fn open(alloc: Global, flat: &'a Flat, order: &'a Order) -> Result<Sim<'a>, NoMemory>
        requires sound { Sound flat.now }
        requires order { IsOrder flat.now order.now.cells }
        ensures table { IfOk result IsTable }
        ensures net { IfOk result (λ sim. sim.flat.now ≡ flat.now) }
        ensures past { IfOk result (λ sim. SimStandsFor sim []) }
    {
        let steps = steps_of(alloc, flat, order)?;
        let keepers = list_keepers(alloc, flat)?;
        let words = first_words(alloc, flat)?;
        let next = zero_words(alloc, flat.widths.as_slice())?;
        let memories = first_memories(alloc, flat)?;
        let room = vec![in alloc; false; ROOM]?;
        let outputs = first_outputs(alloc, flat)?;
        Ok(Sim {
            flat,
            order,
            steps,
            keepers,
            words,
            next,
            memories,
            room,
            outputs,
        })
    }

    /// Takes the inputs of an event, settles every wire that keeps nothing, and renews the outputs.
    ///
    /// It takes no memory.
    pub fn inputs(&mut self, event: &Event)
        requires table { IsTable self.old }
        requires widths { HaveWidths self.old.flat.now.ports.inputs event.now.inputs }
        ensures table { IsTable self.new }
        ensures net { self.new.flat.now ≡ self.old.flat.now }
        ensures settled { IsSettledFor self.new event.now }
        ensures stands { (past : List Event) → SimStandsFor self.old past → SimStandsFor self.new past }
        ensures values { (past : List Event) → SimStandsFor self.old past →
            SimShows self.new (event.now ∷ past) }
        ensures outputs { (past : List Event) → SimStandsFor self.old past →
            SimGives self.new (event.now ∷ past) }
    {
        enter(
            self.flat,
            self.order,
            self.steps.as_slice(),
            event,
            &mut self.words,
            &mut self.room,
        );
        put_outputs(self.flat, &self.words, &mut self.outputs);
    }

    /// The bits of the outputs, as they were renewed last. It takes no memory.
    pub fn outputs(&self) -> &[Bits]
        ensures { result.now ≡ self.now.outputs.items }
    {
        self.outputs.as_slice()
    }

    /// The bits of a wire, as they were settled last.
    pub fn bits(&self, alloc: Global, w: WireId) -> Result<Bits, NoMemory>
        requires table { IsTable self.now }
        requires wire { w.number < length self.now.flat.now.widths }
        ensures { IfOk result (λ bits. bits ≡ value_of self.now w.number) }
    {
        bits_at(alloc, &self.words, w)
    }

    /// Moves the registers and RAMs whose domains tick in the event.
    ///
    /// All of them take what they take before any moves. It takes no memory.
    pub fn tick(&mut self, event: &Event)
        requires table { IsTable self.old }
        requires settled { IsSettledFor self.old event.now }
        ensures table { IsTable self.new }
        ensures net { self.new.flat.now ≡ self.old.flat.now }
        ensures stands { (past : List Event) → SimStandsFor self.old past →
            SimStandsFor self.new (event.now ∷ past) }
    {
        advance(
            self.flat,
            &self.keepers,
            event,
            &mut self.words,
            &mut self.next,
            &mut self.memories,
        );
    }
}
