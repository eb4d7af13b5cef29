//! Whether the numbers of a module are within their limits.
ghost use Rattle.std.specs.Prelude.{ℕ, ◌≤◌, length};
ghost use Rattle.std.specs.Bool.{Decides};
ghost use Rattle.std.specs.List.{AllByRecursion};
ghost use Rattle.netlist.specs.Sound.{IsWireWidth};
ghost use Rattle.net_rules.specs.WellFormed.{HasFewWords, LimitsHold};

use chw_base::limits::{MODULES, RAM_WORDS, WIRE_BITS};
use netlist::{Cell, Module, Net};

// Whether each wire has from one bit to the most that it may have.
fn are_wire_widths(widths: &[u32]) -> bool
    ensures { Decides result (AllByRecursion IsWireWidth widths.now) }
{
    widths.iter().all(|n| 1 <= *n && *n <= WIRE_BITS)
}

// Whether a RAM has from one word to the most that it may have. Other cells have none.
fn has_few_words(cell: &Cell) -> bool
    ensures { Decides result (HasFewWords cell.now) }
{
    match cell {
        Cell::Ram(_, _, words, _) => !words.is_empty() && words.len() <= RAM_WORDS as usize,
        _ => true,
    }
}

// Whether each RAM has from one word to the most that it may have.
fn have_few_words(cells: &[Cell]) -> bool
    ensures { Decides result (AllByRecursion HasFewWords cells.now) }
{
    cells.iter().all(|cell| has_few_words(cell))
}

/// Whether the widths of a module's wires, the words of its RAMs and, if it is the first module, the number of modules are within
/// their limits.
pub(crate) fn limits_hold(net: &Net, i: usize, m: &Module) -> bool
    ensures { Decides result (LimitsHold net.now i m.now) }
{
    are_wire_widths(m.widths.as_slice())
        && have_few_words(m.cells.as_slice())
        && (i > 0 || net.modules.len() <= MODULES as usize)
}
