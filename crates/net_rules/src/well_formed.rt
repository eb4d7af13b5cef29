//! Well formed nets, and what is wrong with others.
ghost use Rattle.std.specs.Prelude.{◌≡◌, ◌<◌, length, slice_get, Some, IfOk, MatchOption};
ghost use Rattle.chw_base.specs.Outcome.{IfFault};
ghost use Rattle.netlist.specs.declared.net.Net.{Net};
ghost use Rattle.net_rules.specs.declared.well_formed.NetFault.{NetFault};
ghost use Rattle.net_rules.specs.WellFormed.{EachRuleHolds, IsBrokenIn, IsNetFault, WellFormed};

mod drivers;
mod limits;
mod names;
mod ports;
mod widths;

use chw_base::{ModId, NoMemory, Or};
use drivers::drivers_hold;
use limits::limits_hold;
use names::names_hold;
use netlist::{Module, Net};
use std::alloc::Global;
use thiserror::Error;
use widths::widths_hold;

/// A rule on nets, in the order in which they are looked at in a module.
#[derive(Clone, Copy, Debug, PartialEq, Eq)]
pub enum NetCode {
    /// What is named exists, and the ports keep their rules.
    Name,
    /// Widths agree.
    Width,
    /// Each wire that is no input is driven once.
    Driver,
    /// Numbers are within their limits.
    Limit,
}

/// The first module of a net that breaks a rule, and the first rule that it breaks.
#[derive(Clone, Copy, Debug, PartialEq, Eq, Error)]
#[error("the net isn't well formed")]
pub struct NetFault {
    pub module: ModId,
    pub code: NetCode,
}

// The first rule that a module at a place of a net breaks, if it breaks one.
fn first_broken(alloc: Global, net: &Net, i: usize, m: &Module) -> Result<Option<NetCode>, NoMemory>
    requires { i < length net.now.modules }
    ensures { IfOk result (λ r. MatchOption r (EachRuleHolds net.now i m.now) (IsBrokenIn net.now i m.now)) }
{
    if !names_hold(alloc, net, i, m)? {
        return Ok(Some(NetCode::Name));
    }
    if !widths_hold(net, i, m) {
        return Ok(Some(NetCode::Width));
    }
    if !drivers_hold(alloc, net, i, m)? {
        return Ok(Some(NetCode::Driver));
    }
    if !limits_hold(net, i, m) {
        return Ok(Some(NetCode::Limit));
    }
    Ok(None)
}

/// Whether a net is well formed, or the first rule that it breaks, in its first module that breaks one.
///
/// It takes memory for the names of ports and, in each module, for a mark for each wire. Its time is linear in the net.
pub fn well_formed(alloc: Global, net: &Net) -> Result<(), Or<NetFault>>
    ensures well_formed { IfOk result (λ _. WellFormed net.now) }
    ensures fault { IfFault result (IsNetFault net.now) }
{
    let modules = net.modules.as_slice();
    if modules.is_empty() {
        return Err(Or::Fault(NetFault {
            module: ModId { number: 0 },
            code: NetCode::Limit,
        }));
    }
    let mut number = 0;
    for m in modules {
        match first_broken(alloc, net, number as usize, m)? {
            Some(code) => {
                let module = ModId { number };
                return Err(Or::Fault(NetFault { module, code }));
            }
            None => number += 1,
        }
    }
    Ok(())
}

/// A well formed net has no fault.
pub fn a_well_formed_net_has_no_fault()
    ensures { (net : Net) (fault : NetFault) → WellFormed net → IsNetFault net fault → ⊥ }
{}

/// A net has at most one fault.
pub fn a_net_has_one_fault()
    ensures { (net : Net) (a b : NetFault) → IsNetFault net a → IsNetFault net b
        → (a.module.number ≡ b.module.number) × (a.code ≡ b.code) }
{}
