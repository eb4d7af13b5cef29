//! What the items of a module are printed by.
use chw_clock::Ports;

/// The ports of the net, whether the module is its top, and how many inputs the module has.
#[derive(Clone, Copy)]
pub struct Scope<'a> {
    pub ports: &'a Ports,
    pub is_top: bool,
    pub inputs: u32,
}
