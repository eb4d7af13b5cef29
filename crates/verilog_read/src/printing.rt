//! The printed text of a net, and what is read of it.
ghost use Rattle.std.specs.Prelude.{◌≡◌, IfOk};
ghost use Rattle.net_rules.specs.WellFormed.{WellFormed};
ghost use Rattle.verilog_text.specs.Text.{net_text};
ghost use Rattle.verilog_text.specs.VText.{AreCounted, IsCounted, VText};

use crate::reading::read;
use chw_base::{NoMemory, Or};
use netlist::{Module, Net};
use std::alloc::Global;
use verilog_print::print;
use verilog_rules::laws::no_text_is_both;
use verilog_text::laws::{one_net, printed_text_denotes_its_net};

// A machine counts the wires, cells and outputs of each module in memory.
fn count(body: &Module)
    ensures { IsCounted body.now }
{
    let wires = body.widths.len();
    let cells = body.cells.len();
    let outputs = body.outputs.len();
    prove!(wires <= usize::MAX);
    prove!(cells <= usize::MAX);
    prove!(outputs <= usize::MAX);
}

// It does so of each module of a net.
fn count_all(net: &Net)
    ensures { AreCounted net.now }
{
    for body in net.modules.as_slice() {
        count(body);
    }
}

/// The printed text of a well formed net, which denotes this net.
///
/// `NoMemory` comes where the text can't grow so far.
pub fn readable_text(alloc: Global, net: &Net) -> Result<Vec<u8>, NoMemory>
    requires { WellFormed net.now }
    ensures text { IfOk result (λ text. text.items ≡ net_text net.now) }
    ensures denotes { IfOk result (λ text. VText text.items net.now) }
{
    printed_text_denotes_its_net();
    count_all(net);
    print(alloc, net)
}

/// The net that is read from the printed text of a well formed net, which is this net. Only memory may be wanting.
pub fn printed_and_read(alloc: Global, net: &Net) -> Result<Net, NoMemory>
    requires { WellFormed net.now }
    ensures { IfOk result (λ again. again ≡ net.now) }
{
    one_net();
    no_text_is_both();
    let text = readable_text(alloc, net)?;
    match read(alloc, &text) {
        Ok(again) => Ok(again),
        Err(Or::Fault(_)) => unreachable!(),
        Err(Or::Memory) => Err(NoMemory),
    }
}
