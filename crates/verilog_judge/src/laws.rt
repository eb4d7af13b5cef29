//! Laws of what the rules require of a text that kept the rules before.
//! Each is a function that does nothing, and says its law of all texts.
ghost use Rattle.std.specs.Prelude.{ℕ, List};
ghost use Rattle.verilog_checks.specs.Narrow.{AreNarrow};
ghost use Rattle.verilog_judge.specs.Driving.{DriveTheirOwn};
ghost use Rattle.verilog_judge.specs.Meant.{AreMeant};
ghost use Rattle.verilog_judge.specs.Read.{AreRead};
ghost use Rattle.verilog_rules.specs.Checks.{Hold};
ghost use Rattle.verilog_rules.specs.Declarations.{inputs_of, outputs_of, ports_in};
ghost use Rattle.verilog_rules.specs.Faults.{AllHold, IsTreeIn};
ghost use Rattle.verilog_rules.specs.Limits.{limit_checks};
ghost use Rattle.verilog_rules.specs.NameRules.{name_checks};
ghost use Rattle.verilog_rules.specs.Resolving.{resolved};
ghost use Rattle.verilog_tree.specs.declared.module.Tree.{Tree};

/// The ports of the last module of a text that keeps the limits are no wider than a wire may be.
pub fn limited_ports_are_narrow()
    ensures inputs { (tree : Tree) → Hold (limit_checks tree) → AreNarrow (inputs_of (ports_in tree.last)) }
    ensures outputs { (tree : Tree) → Hold (limit_checks tree) → AreNarrow (outputs_of (ports_in tree.last)) }
{}

/// A text that keeps the limits is as the rules on widths require.
pub fn limited_texts_are_read()
    ensures { (text : List ℕ) (tree : Tree) → IsTreeIn text tree
        → Hold (limit_checks tree) → AreRead (resolved tree).modules }
{}

/// The drivers of a text that keeps the rules on names drive wires and outputs of their own modules.
pub fn named_texts_drive_their_own()
    ensures { (tree : Tree) → Hold (name_checks tree) → DriveTheirOwn (resolved tree).modules }
{}

/// A text that keeps all rules is as its net requires.
pub fn checked_texts_are_meant()
    ensures { (text : List ℕ) (tree : Tree) → IsTreeIn text tree
        → AllHold tree → AreMeant (resolved tree).modules }
{}
