//! The bits that an event brings in.
ghost use Rattle.std.specs.Prelude.{◌≡◌, ◌≤◌, ◌++◌, length, map, drop, take};
ghost use Rattle.chw_clock.specs.Histories.{HaveWidths};
ghost use Rattle.net_sim.specs.Settling.{KeepsKeepers};
ghost use Rattle.net_sim.specs.Stepping.{Settled};
ghost use Rattle.net_sim.specs.Steps.{HaveConstants, HaveSteps};
ghost use Rattle.netlist.specs.Orders.{IsOrder};
ghost use Rattle.netlist.specs.Sound.{Sound};

use crate::settle::settle_all;
use crate::step::Step;
use crate::word::Word;
use chw_bits::Bits;
use chw_clock::Event;
use netlist::{Flat, Order};

/// Puts the inputs' bits into the first words.
pub(crate) fn put_inputs(words: &mut [Word], inputs: &[Bits])
    requires few { length inputs.now ≤ length words.old }
    requires widths { map length inputs.now ≡ take (length inputs.now) (map length words.old) }
    ensures { words.new ≡ inputs.now ++ drop (length inputs.now) words.old }
{
    for (k, bits) in inputs.iter().enumerate() {
        words[k].put_bits(bits.as_slice());
    }
}

/// Takes the inputs of an event, and settles every wire that keeps nothing.
pub(crate) fn enter(
    flat: &Flat,
    order: &Order,
    steps: &[Step],
    event: &Event,
    words: &mut [Word],
    room: &mut [bool],
)
    requires sound { Sound flat.now }
    requires order { IsOrder flat.now order.now.cells }
    requires steps { HaveSteps flat.now order.now.cells steps.now }
    requires table { map length words.old ≡ flat.now.widths }
    requires constants { HaveConstants flat.now words.old }
    requires room { length room.old ≡ 8192 }
    requires widths { HaveWidths flat.now.ports.inputs event.now.inputs }
    ensures settled { Settled flat.now words.new event.now }
    ensures keepers { KeepsKeepers flat.now words.old words.new }
    ensures widths { map length words.new ≡ map length words.old }
{
    put_inputs(words, event.inputs.as_slice());
    settle_all(words, flat, order, steps, room);
}
