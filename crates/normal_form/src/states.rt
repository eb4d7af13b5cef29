//! A normal state of which no made definition uses itself, or a cycle of uses.
ghost use Rattle.std.specs.Prelude.{◌≡◌, map, IfOk};
ghost use Rattle.chw_base.specs.Outcome.{IfFault};
ghost use Rattle.graph_order.specs.Orders.{LeastFirst};
ghost use Rattle.data_kinds.specs.Cycles.{IsCycleOf};
ghost use Rattle.normal_forms.specs.Normal.{IsNormal};
ghost use Rattle.normal_forms.specs.Uses.{Uses, IsAcyclic};
ghost use Rattle.normal_form.specs.Entries.{IsEntry};
ghost use Rattle.normal_form.specs.UseOrders.{EachIsWhole, IsUseOrder, UsesAreThere};

use crate::order::use_order;
use chw_base::{MadeId, NoMemory, Or};
use chw_terms::{Made, Program};
use graph_order::Ordering;
use std::alloc::Global;
use std::marker::Model;

/// A tidy and typed program and made definitions that are a normal state of it, the top first, of which none uses itself.
/// Contracts see the two.
#[derive(Drop)]
pub struct Normal<'a> {
    program: &'a Program,
    made: &'a [Made],
    /// The made definitions, each after those that it uses.
    order: Vec<MadeId>,
}

impl<'a> Model for Normal<'a> {
    ghost use Rattle.std.specs.Prelude.{map};
    ghost use Rattle.normal_form.specs.States.{State, coded_state};

    ghost Value = { State };

    ghost coded = { coded_state };

    ghost use Rattle.normal_form.specs.UseOrders.{IsOrderedState};

    ghost view = { λ n. record { program = n.program.now; made = n.made.now } };

    ghost invariant = { λ n. IsOrderedState n.program.now n.made.now (map (λ m. m.number) n.order.items) };
}

impl<'a> Normal<'a> {
    /// The normal state, where none of its made definitions uses itself, by however many others.
    ///
    /// `Fault` comes exactly where one does. It gives a cycle of uses: some made definitions, each once, of which each uses the next and
    /// the last one the first. The least number stands first. The cycle is the first that `order_of` of the crate `graph_order` finds
    /// where each made definition lists those in its body, in the order of the text. Time is linear in the bodies.
    /// Where a number would pass 32 bits, the answer is want of memory.
    pub fn of(
        alloc: Global,
        program: &'a Program,
        made: &'a [Made],
    ) -> Result<Normal<'a>, Or<Vec<MadeId>>>
        requires entry { IsEntry program.now made.now }
        requires normal { IsNormal program.now made.now }
        ensures state { IfOk result (λ n. n ≡ record { program = program.now; made = made.now }) }
        ensures acyclic { IfOk result (λ _. IsAcyclic made.now) }
        ensures cycle { IfFault result (λ ids. IsCycleOf (Uses made.now) (map (λ m. m.number) ids.items)) }
        ensures least { IfFault result (λ ids. LeastFirst (map (λ m. m.number) ids.items)) }
        ensures some_cycle { IfFault result (λ _. IsAcyclic made.now → ⊥) }
    {
        match use_order(alloc, made)? {
            Ordering::Order(nodes) => {
                let order = ids(alloc, &nodes)?;
                Ok(Normal {
                    program,
                    made,
                    order,
                })
            }
            Ordering::Cycle(nodes) => Err(Or::Fault(ids(alloc, &nodes)?)),
        }
    }

    /// The program.
    pub fn program(&self) -> &'a Program
        ensures program { result.now ≡ self.now.program }
        ensures entry { IsEntry self.now.program self.now.made }
        ensures normal { IsNormal self.now.program self.now.made }
    {
        self.program
    }

    /// The made definitions, Made 0 first. Each is a whole.
    pub fn made(&self) -> &'a [Made]
        ensures made { result.now ≡ self.now.made }
        ensures acyclic { IsAcyclic self.now.made }
        ensures there { UsesAreThere self.now.made }
        ensures wholes { EachIsWhole self.now.made }
    {
        self.made
    }

    /// The made definitions by their numbers, each once and after those that it uses.
    pub fn order(&self) -> &[MadeId]
        ensures { IsUseOrder self.now.made (map (λ m. m.number) result.now) }
    {
        self.order.as_slice()
    }
}

// The made definitions of these numbers.
fn ids(alloc: Global, numbers: &[u32]) -> Result<Vec<MadeId>, NoMemory>
    ensures { IfOk result (λ ids. map (λ m. m.number) ids.items ≡ numbers.now) }
{
    let mut ids = Vec::new(alloc);
    for number in numbers {
        ids.push(MadeId { number: *number })?;
    }
    Ok(ids)
}
