//! Reading a text: its tokens, its tree, its names, its widths and its drivers.
ghost use Rattle.std.specs.Prelude.{◌≡◌, IfOk, OnOk};
ghost use Rattle.chw_base.specs.Outcome.{IfFault};
ghost use Rattle.chw_base.specs.declared.outcome.Or.TheVariants.{Fault};
ghost use Rattle.verilog_rules.specs.Checks.{Hold};
ghost use Rattle.verilog_rules.specs.Faults.{IsTreeIn, IsVFault, fault_at};
ghost use Rattle.verilog_rules.specs.Limits.{limit_checks};
ghost use Rattle.verilog_rules.specs.NameRules.{name_checks};
ghost use Rattle.verilog_rules.specs.Resolving.{resolved};
ghost use Rattle.verilog_text.specs.VText.{VText};

use chw_base::Or;
use netlist::Net;
use std::alloc::Global;
use verilog_judge::laws::{
    checked_texts_are_meant, limited_ports_are_narrow, limited_texts_are_read,
    named_texts_drive_their_own,
};
use verilog_judge::{drivers, net, widths};
use verilog_lex::lex;
use verilog_limits::limits;
use verilog_names::resolve;
use verilog_parse::parse;
use verilog_rules::laws::checked_texts_denote;
use verilog_rules::{Resolved, VCode, VFault};
use verilog_tree::Tree;

// A rule that is broken at a place.
fn broken(code: VCode, at: usize) -> Or<VFault>
    ensures { result ≡ Fault (fault_at code at) }
{
    Or::Fault(VFault { code, at })
}

// The tree of a text.
fn tree_of(alloc: Global, text: &[u8]) -> Result<Tree<'_>, Or<VFault>>
    ensures tree { IfOk result (IsTreeIn text.now) }
    ensures fault { IfFault result (IsVFault text.now) }
{
    let tokens = match lex(alloc, text) {
        Ok(tokens) => tokens,
        Err(Or::Fault(fault)) => return Err(broken(VCode::V01, fault.at)),
        Err(Or::Memory) => return Err(Or::Memory),
    };
    match parse(alloc, text.len(), &tokens) {
        Ok(tree) => Ok(tree),
        Err(Or::Fault(fault)) => Err(broken(VCode::V02, fault.at)),
        Err(Or::Memory) => Err(Or::Memory),
    }
}

// The text with its names resolved, where its limits and its names are as they should be.
fn named<'t>(alloc: Global, text: &'t [u8], tree: &Tree<'t>) -> Result<Resolved<'t>, Or<VFault>>
    requires { IsTreeIn text.now tree.now }
    ensures resolved { IfOk result (λ r. r ≡ resolved tree.now) }
    ensures limits { OnOk result (Hold (limit_checks tree.now)) }
    ensures names { OnOk result (Hold (name_checks tree.now)) }
    ensures fault { IfFault result (IsVFault text.now) }
{
    limited_ports_are_narrow();
    if let Some(at) = limits(tree) {
        return Err(broken(VCode::V06, at));
    }
    match resolve(alloc, tree) {
        Ok(resolved) => Ok(resolved),
        Err(Or::Fault(fault)) => Err(broken(VCode::V03, fault.at)),
        Err(Or::Memory) => Err(Or::Memory),
    }
}

/// The net that the text denotes.
///
/// A text that denotes none is refused by the first rule that it breaks, in the order V01, V02, V06, V03, V04, V05, each looked for in the
/// whole text before the next, at the least place where it breaks it. The time is linear in the text.
pub fn read(alloc: Global, text: &[u8]) -> Result<Net, Or<VFault>>
    ensures net { IfOk result (VText text.now) }
    ensures fault { IfFault result (IsVFault text.now) }
{
    checked_texts_denote();
    limited_texts_are_read();
    named_texts_drive_their_own();
    checked_texts_are_meant();
    let tree = tree_of(alloc, text)?;
    let resolved = named(alloc, text, &tree)?;
    if let Some(at) = widths(alloc, &resolved)? {
        return Err(broken(VCode::V04, at));
    }
    if let Some(at) = drivers(alloc, &resolved)? {
        return Err(broken(VCode::V05, at));
    }
    Ok(net(alloc, resolved)?)
}
