//! Names resolved to wires, clocks and modules.
ghost use Rattle.std.specs.Prelude.{◌≡◌, IfOk, OnOk, Some, None};
ghost use Rattle.chw_base.specs.Outcome.{IfFault};
ghost use Rattle.verilog_checks.specs.Narrow.{AreNarrow};
ghost use Rattle.verilog_rules.specs.Checks.{Hold, least_broken};
ghost use Rattle.verilog_rules.specs.Declarations.{inputs_of, outputs_of, ports_in};
ghost use Rattle.verilog_rules.specs.NameRules.{name_checks};
ghost use Rattle.verilog_rules.specs.Resolving.{resolved};

use crate::modules::resolve_tree;
use chw_base::Or;
use std::alloc::Global;
use verilog_checks::Least;
use verilog_rules::Resolved;
use verilog_tree::Tree;

/// A rule on names is broken: the least place at which one is.
#[derive(Clone, Copy, Debug, PartialEq, Eq)]
pub struct NameFault {
    pub at: usize,
}

/// The text with each name resolved, or the least place at which a rule on names is broken.
///
/// The ports of its last module keep the limits.
pub fn resolve<'t>(alloc: Global, tree: &Tree<'t>) -> Result<Resolved<'t>, Or<NameFault>>
    requires inputs { AreNarrow (inputs_of (ports_in tree.now.last)) }
    requires outputs { AreNarrow (outputs_of (ports_in tree.now.last)) }
    ensures resolved { IfOk result (λ r. r ≡ resolved tree.now) }
    ensures hold { OnOk result (Hold (name_checks tree.now)) }
    ensures fault { IfFault result (λ f. least_broken (name_checks tree.now) ≡ Some f.at) }
{
    let mut least = Least::new();
    let resolved = resolve_tree(alloc, &mut least, tree)?;
    match least.place() {
        Some(at) => Err(Or::Fault(NameFault { at })),
        None => Ok(resolved),
    }
}
