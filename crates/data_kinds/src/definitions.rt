//! Cycles of definitions.
ghost use Rattle.std.specs.Prelude.{◌<◌, ◌^◌, length, IfOk, IfSome, IfNone};
ghost use Rattle.chw_terms.specs.References.{DefRefers};
ghost use Rattle.graph_order.specs.References.{HasNoCycle};
ghost use Rattle.graph_order.specs.Orders.{LeastFirst};
ghost use Rattle.data_kinds.specs.Cycles.{IsCycleOf};

use crate::defs::def_order;
use chw_base::NoMemory;
use chw_terms::Def;
use graph_order::Ordering;
use std::alloc::Global;

/// A cycle of definitions, by their numbers: each once, of which each stands in the body of the one before and the first in the body of
/// the last. The least number stands first. `None` comes exactly where no definition refers to itself, by its body or by way of others.
///
/// A number past the last definition is no reference. The cycle is the first that `order_of` of the crate `graph_order` finds where each
/// definition lists those in its body, in the order of the text. Time is linear in the bodies.
pub fn definition_cycle(alloc: Global, defs: &[Def]) -> Result<Option<Vec<u32>>, NoMemory>
    requires { length defs.now < 2 ^ 32 }
    ensures no_cycle { IfOk result (λ cycle. IfNone cycle (HasNoCycle (DefRefers defs.now))) }
    ensures cycle { IfOk result (λ cycle. IfSome cycle (λ nodes. IsCycleOf (DefRefers defs.now) nodes.items)) }
    ensures least { IfOk result (λ cycle. IfSome cycle (λ nodes. LeastFirst nodes.items)) }
    ensures some_cycle { IfOk result (λ cycle. IfSome cycle (λ _. HasNoCycle (DefRefers defs.now) → ⊥)) }
{
    match def_order(alloc, defs)? {
        Ordering::Order(_) => Ok(None),
        Ordering::Cycle(nodes) => Ok(Some(nodes)),
    }
}
