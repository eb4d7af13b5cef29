//! An order of made definitions in which each stands after those that it uses, or a cycle of uses.
ghost use Rattle.std.specs.Prelude.{IfOk};
ghost use Rattle.graph_order.specs.Orders.{LeastFirst, OfCycle, OfOrder};
ghost use Rattle.data_kinds.specs.Cycles.{IsCycleOf};
ghost use Rattle.normal_forms.specs.Uses.{Uses, IsAcyclic};
ghost use Rattle.normal_form.specs.UseOrders.{IsUseOrder, UsesAreThere};

use crate::uses::uses_of_each;
use chw_base::{NoMemory, narrow};
use chw_terms::Made;
use graph_order::{Ordering, order_of};
use std::alloc::Global;

/// An order of the made definitions, or a cycle of their uses. There is an order exactly where none uses itself.
///
/// A number that no made definition has is no use. Where a number would pass 32 bits, the answer is want of memory.
pub(crate) fn use_order(alloc: Global, made: &[Made]) -> Result<Ordering, NoMemory>
    ensures order { IfOk result (λ r. OfOrder r (λ nodes. UsesAreThere made.now → IsUseOrder made.now nodes)) }
    ensures acyclic { IfOk result (λ r. OfOrder r (λ _. IsAcyclic made.now)) }
    ensures cycle { IfOk result (λ r. OfCycle r (IsCycleOf (Uses made.now))) }
    ensures least { IfOk result (λ r. OfCycle r LeastFirst) }
    ensures some_cycle { IfOk result (λ r. OfCycle r (λ _. IsAcyclic made.now → ⊥)) }
{
    narrow(made.len())?;
    let graph = uses_of_each(alloc, made)?;
    order_of(alloc, &graph)
}
