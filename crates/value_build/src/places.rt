//! The modules of a net: which made definitions have one, in which order.
ghost use Rattle.std.specs.Prelude.{◌≡◌, ◌<◌, ◌^◌, length, IfOk};
ghost use Rattle.std.specs.List.{AllByRecursion};
ghost use Rattle.net_built.specs.Circuits.{place_in};
ghost use Rattle.value_build.specs.Places.{AllAre, ArePlaces};

use chw_base::{MadeId, ModId, NoMemory, narrow};
use std::alloc::Global;
use std::marker::Model;

/// The made definitions that have modules, in the order of the modules, with the place of each. Contracts see their numbers.
#[derive(Drop)]
pub struct Places {
    order: Vec<u32>,
    /// For each made definition the first place at which it stands, and past all places where it has none.
    places: Vec<u32>,
    /// How many places there are.
    none: u32,
}

impl Model for Places {
    ghost use Rattle.std.specs.Prelude.{ℕ, List};
    ghost use Rattle.value_build.specs.Places.{ArePlaces, HaveNoPlace};

    ghost Value = { List ℕ };

    ghost view = { λ p. p.order.items };

    ghost invariant = { λ p. ArePlaces p.order.items p.places.items
        × HaveNoPlace p.order.items p.places.items p.none };
}

impl Places {
    /// The order of these made definitions.
    ///
    /// Where a number would pass 32 bits, the answer is want of memory.
    pub fn of(alloc: Global, order: Vec<u32>, count: usize) -> Result<Places, NoMemory>
        requires { AllByRecursion (λ m. m < count) order.items }
        ensures { IfOk result (λ p. p ≡ order.items) }
    {
        let none = narrow(order.len())?;
        let mut places = vec![in alloc; none; count]?;
        mark(&mut places, &order);
        Ok(Places {
            order,
            places,
            none,
        })
    }

    /// The made definitions that have modules.
    pub fn order(&self) -> &[u32]
        ensures { result.now ≡ self.now }
    {
        self.order.as_slice()
    }

    /// The module of a made definition. One that has none has the number behind all modules.
    pub fn module_of(&self, m: MadeId) -> ModId
        ensures { result.number ≡ place_in self.now m.number }
    {
        match self.places.get(m.number as usize) {
            Some(number) => ModId { number: *number },
            None => ModId { number: self.none },
        }
    }
}

// Puts the place of each made definition of an order.
fn mark(places: &mut Vec<u32>, order: &[u32])
    requires short { length order.now < 2 ^ 32 }
    requires none { AllAre (length order.now) places.old.items }
    ensures are { ArePlaces order.now places.new.items }
    ensures count { length places.new.items ≡ length places.old.items }
{
    for i in (0..order.len()).rev() {
        let m = order[i] as usize;
        if m < places.len() {
            places[m] = i as u32;
        }
    }
}
