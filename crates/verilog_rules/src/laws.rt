//! Laws of the rules on texts. Each is a function that does nothing, and says its law of all texts.
ghost use Rattle.std.specs.Prelude.{◌≡◌, ℕ, List, Some};
ghost use Rattle.netlist.specs.declared.net.Net.{Net};
ghost use Rattle.verilog_rules.specs.Checks.{Check, Hold, least_broken};
ghost use Rattle.verilog_rules.specs.Faults.{AllHold, IsTreeIn, IsVFault};
ghost use Rattle.verilog_rules.specs.Least.{IsBrokenAt, IsLeastBroken};
ghost use Rattle.verilog_rules.specs.NetOf.{net_of};
ghost use Rattle.verilog_rules.specs.Resolving.{resolved};
ghost use Rattle.verilog_rules.specs.declared.fault.VFault.{VFault};
ghost use Rattle.verilog_text.specs.VText.{VText};
ghost use Rattle.verilog_tree.specs.declared.module.Tree.{Tree};

use verilog_text::laws::{one_source, one_splitting, split_texts_have_no_such_place};
use verilog_tree::laws::trees_are_sources;

/// A text of which all rules hold denotes the net of its tree.
pub fn checked_texts_denote()
    ensures { (text : List ℕ) (tree : Tree) → IsTreeIn text tree → AllHold tree → VText text (net_of (resolved tree)) }
{
    trees_are_sources();
}

/// All rules hold of a text that denotes a net.
pub fn denoted_texts_are_checked()
    ensures { (text : List ℕ) (net : Net) (tree : Tree) → VText text net → IsTreeIn text tree → AllHold tree }
{
    one_splitting();
    one_source();
    trees_are_sources();
}

/// No text that denotes a net has a fault.
pub fn no_text_is_both()
    ensures { (text : List ℕ) (net : Net) (fault : VFault) → VText text net → IsVFault text fault → ⊥ }
{
    one_splitting();
    one_source();
    trees_are_sources();
    split_texts_have_no_such_place();
}

/// The least place of the broken checks is that of one that doesn't hold, and no such one has a lesser place.
/// Where there is no such place, each check holds.
pub fn least_broken_is_the_least()
    ensures least { (checks : List Check) (at : ℕ) → least_broken checks ≡ Some at → IsLeastBroken checks at }
    ensures none { (checks : List Check) (at : ℕ) → Hold checks → IsBrokenAt at checks → ⊥ }
{}
