//! Laws of what is read. Each is a function that does nothing, and says its law of all texts.
ghost use Rattle.std.specs.Prelude.{◌≡◌, List, ℕ};
ghost use Rattle.net_rules.specs.WellFormed.{WellFormed};
ghost use Rattle.netlist.specs.declared.net.Net.{Net};
ghost use Rattle.verilog_rules.specs.Faults.{IsVFault};
ghost use Rattle.verilog_rules.specs.declared.fault.VFault.{VFault};
ghost use Rattle.verilog_text.specs.Text.{net_text};
ghost use Rattle.verilog_text.specs.VText.{AreCounted, VText};

use verilog_rules::laws::no_text_is_both;
use verilog_text::laws::{one_net, printed_text_denotes_its_net};

/// The printed text of a well formed net denotes no other net, and nothing is wrong with it.
pub fn printed_text_is_read_back()
    ensures net { (net read : Net) → WellFormed net → AreCounted net → VText (net_text net) read → read ≡ net }
    ensures no_fault { (net : Net) (fault : VFault) → WellFormed net → AreCounted net → IsVFault (net_text net) fault → ⊥ }
{
    printed_text_denotes_its_net();
    one_net();
    no_text_is_both();
}
