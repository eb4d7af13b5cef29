//! The sum of the numbers of an output at the events of odd number.
ghost use Rattle.std.specs.Prelude.{◌≡◌, ◌+◌, ◌%◌, ◌^◌, IfOk};
ghost use Rattle.std.specs.List.{AllByRecursion};
ghost use Rattle.chw_bits.specs.Bits.{number_of};
ghost use Rattle.chw_clock.specs.Histories.{FitsEvent};
ghost use Rattle.answers.specs.MakeAnswer.Sums.{HasSum, adds, first_number};
ghost use Rattle.netlist.specs.Orders.{IsOrder};
ghost use Rattle.netlist.specs.Sound.{Sound};

use chw_base::NoMemory;
use chw_bits::Bits;
use chw_clock::Event;
use net_sim::Sim;
use netlist::{Flat, Order};
use std::alloc::Global;

// The number that bits mean, modulo 2 to the 64.
fn number_of(bits: &[bool]) -> u64
    ensures { result ≡ number_of bits.now % 2 ^ 64 }
{
    let mut number: u64 = 0;
    for bit in bits {
        number = number.wrapping_mul(2).wrapping_add(u64::from(*bit));
    }
    number
}

// The number of the first output, modulo 2 to the 64.
fn first_number(outputs: &[Bits]) -> u64
    ensures { result ≡ first_number outputs.now % 2 ^ 64 }
{
    match outputs.first() {
        Some(bits) => number_of(bits.as_slice()),
        None => 0,
    }
}

// A sum with what the event of this number adds to it, modulo 2 to the 64.
fn with_event(sum: u64, number: usize, outputs: &[Bits]) -> u64
    ensures { result ≡ (sum + adds number outputs.now) % 2 ^ 64 }
{
    if number % 2 == 1 {
        sum.wrapping_add(first_number(outputs))
    } else {
        sum
    }
}

// The sum of the numbers of the first output of a flat net at those of these events that are of odd number, counted from 0, modulo 2 to
// the 64.
pub(crate) fn sum_of(
    alloc: Global,
    flat: &Flat,
    order: &Order,
    events: &[Event],
) -> Result<u64, NoMemory>
    requires sound { Sound flat.now }
    requires order { IsOrder flat.now order.now.cells }
    requires fit { AllByRecursion (FitsEvent flat.now.ports) events.now }
    ensures { IfOk result (HasSum flat.now events.now) }
{
    let mut sim = Sim::open(alloc, flat, order)?;
    let mut sum = 0;
    for (number, event) in events.iter().enumerate() {
        sim.inputs(event);
        sum = with_event(sum, number, sim.outputs());
        sim.tick(event);
    }
    Ok(sum)
}
