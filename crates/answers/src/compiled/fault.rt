//! Why a program can't be compiled.

use chw_base::{Seq, WireId};
use chw_norm::RunFault;
use judge::StateFault;

/// Why a program has no net that can be printed or stepped.
#[derive(Drop)]
pub enum CompileFault {
    /// Rewriting is refused.
    Run(RunFault),
    /// The state in which it ends isn't a normal one of which no made definition uses itself.
    State(StateFault),
    /// The net has more flat wires than the limit.
    TooLarge,
    /// These flat wires drive each other in a circle that passes no register and no RAM, the one with the least number first.
    Loop(Seq<WireId>),
}
