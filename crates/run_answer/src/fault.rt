//! Why a text can't be run.

use chw_base::{Seq, WireId};
use verilog_rules::VFault;

/// Why a Verilog text gives no circuit.
#[derive(Debug, Drop)]
pub enum CircuitFault {
    /// The text denotes no net: the first rule that it breaks.
    Text(VFault),
    /// Its net has more flat wires than the limit.
    TooLarge,
    /// These flat wires drive each other in a circle that passes no register and no RAM, the one with the least number first.
    Loop(Seq<WireId>),
}
