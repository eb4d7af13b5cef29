//! Worked examples of texts, each as the contract of a call that does nothing.
ghost use Rattle.verilog_text.specs.Examples.{CounterText, DenotesNone, FreeText, assigned_register, narrow_output, range_to_one, unknown_name};

use crate::laws::printed_text_denotes_its_net;

/// A text with comments, few blanks, leading zeros, names of any kind and items in any order denotes a net.
pub fn of_a_free_text()
    ensures { FreeText }
{}

/// With one thing changed it denotes none: a name that is declared nowhere, a register that an assignment drives, an output narrower than
/// its wire, or a range that doesn't end at 0.
pub fn of_refused_texts()
    ensures unknown { DenotesNone unknown_name }
    ensures register { DenotesNone assigned_register }
    ensures narrow { DenotesNone narrow_output }
    ensures range { DenotesNone range_to_one }
{}

/// The printed text of a counter, which is of two modules, denotes the counter.
pub fn of_a_counter()
    ensures { CounterText }
{
    printed_text_denotes_its_net();
}
