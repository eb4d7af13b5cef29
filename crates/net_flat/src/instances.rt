//! Instances of modules, and those that an instance uses.
ghost use Rattle.std.specs.Prelude.{◌≡◌, ◌+◌, ◌<◌, ◌≤◌, ◌^◌, length, sum_by, IfOk};
ghost use Rattle.std.specs.List.{AllByRecursion};
ghost use Rattle.net_flat.specs.Instances.{UseMoves, uses_along};
ghost use Rattle.net_flat.specs.Sizes.{size_in};

use crate::moves::moved_wires;
use crate::sizes::size_of_use;
use chw_base::{ModId, NoMemory, Seq, WireId};
use netlist::{Cell, Module};
use std::alloc::Global;

/// An instance of a module: its first flat wire, and the flat wires that its inputs copy. The top has none to copy.
#[derive(Drop)]
pub(crate) struct Instance {
    pub module: ModId,
    pub base: u32,
    pub reads: Seq<WireId>,
}

/// The instances that an instance of a module uses, in order, by its first flat wire and the sizes of modules.
pub(crate) fn uses(
    alloc: Global,
    sizes: &[u32],
    base: u32,
    m: &Module,
) -> Result<Vec<Instance>, NoMemory>
    requires reads { AllByRecursion (UseMoves base) m.now.cells }
    requires fits { base + length m.now.widths + sum_by (size_in sizes.now) m.now.cells < 2 ^ 32 }
    ensures { IfOk result (λ u. u.items ≡ uses_along sizes.now base (base + length m.now.widths) m.now.cells) }
{
    let mut uses = Vec::new(alloc);
    let mut next = base + m.widths.len() as u32;
    for cell in m.cells.as_slice() {
        if let Cell::Use(module, reads, _) = cell {
            let reads = moved_wires(alloc, base, reads.as_slice())?;
            uses.push(Instance {
                module: *module,
                base: next,
                reads,
            })?;
        }
        next += size_of_use(sizes, cell);
    }
    Ok(uses)
}
