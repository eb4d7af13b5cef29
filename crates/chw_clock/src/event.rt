//! Events, and the ports through which they come in.
ghost use Rattle.std.specs.Prelude.{◌≡◌};
ghost use Rattle.chw_clock.specs.Histories.{is_one_of};

use chw_base::{DomId, Name, Seq};
use chw_bits::Bits;

/// One event: the clock domains whose active edges come at once, those of them whose reset is asserted, and the values of all inputs just
/// before these edges.
#[derive(Debug, Drop)]
pub struct Event {
    /// The domains that tick. At least one does.
    pub ticks: Seq<DomId>,
    /// The domains whose reset is asserted. Each of them ticks in the event.
    pub resets: Seq<DomId>,
    /// The bits of each input of the ports, in order.
    pub inputs: Seq<Bits>,
}

/// An input or an output: its name, its clock domain, and its width in bits.
#[derive(Debug, Drop)]
pub struct Port {
    pub name: Name,
    pub dom: DomId,
    pub width: u32,
}

/// The clock domains by their names, those of them that have a reset, the inputs and the outputs, each in order.
#[derive(Debug, Drop)]
pub struct Ports {
    pub domains: Seq<Name>,
    /// The domains that have a reset, in the order of `domains`, each once.
    pub resets: Seq<DomId>,
    pub inputs: Seq<Port>,
    pub outputs: Seq<Port>,
}

impl Ports {
    /// Whether the domain of this number has a reset.
    pub fn has_reset(&self, domain: usize) -> bool
        ensures { result ≡ is_one_of self.now.resets (record { number = domain }) }
    {
        self.resets
            .as_slice()
            .iter()
            .any(|d| d.number as usize == domain)
    }
}
