//! The net of a text.
ghost use Rattle.std.specs.Prelude.{◌≡◌, ◌+◌, ◌<◌, ◌^◌, [], length, IfOk};
ghost use Rattle.chw_base.specs.Outcome.{IfFault};
ghost use Rattle.blif_text.specs.BlifText.{BlifText, EachIs, HasLength, HasNames, net_said};
ghost use Rattle.blif_text.specs.Faults.{IsBlifFault};
ghost use Rattle.blif_read.specs.Nets.{IsRuleFault, bitnet_of};
ghost use Rattle.blif_read.specs.Shown.{all_said};

use crate::bitnet::{Bitnet, net_of};
use crate::lengths::length_fault;
use crate::names::names_fault;
use crate::said::statements;
use crate::statement::Said;
use blif_text::{BlifCode, BlifFault};
use chw_base::Or;
use std::alloc::Global;

/// The net of statements, or the rule that they break.
fn judged(alloc: Global, all: &[Said]) -> Result<Bitnet, Or<BlifFault>>
    ensures names { IfOk result (λ _.
        EachIs (HasNames (all_said all.now)) [] (all_said all.now)) }
    ensures lengths { IfOk result (λ _. EachIs HasLength [] (all_said all.now)) }
    ensures net { IfOk result (λ b. bitnet_of b ≡ net_said (all_said all.now)) }
    ensures fault { IfFault result
        (λ fault. IsRuleFault (all_said all.now) fault.code fault.line) }
{
    if let Some(line) = names_fault(alloc, all)? {
        return Err(Or::Fault(BlifFault {
            code: BlifCode::B02,
            line,
        }));
    }
    if let Some(line) = length_fault(all) {
        return Err(Or::Fault(BlifFault {
            code: BlifCode::B03,
            line,
        }));
    }
    Ok(net_of(alloc, all)?)
}

/// The net of single bits of a text.
///
/// A fault is what the text breaks first: the form and the places of its lines, the rule on names,
/// the lengths of rows; and the number of the first line to blame. Want of memory may come before
/// it.
pub fn read(alloc: Global, text: &[u8]) -> Result<Bitnet, Or<BlifFault>>
    requires { length text.now + 1 < 2 ^ 32 }
    ensures bitnet { IfOk result (λ b. BlifText text.now (bitnet_of b)) }
    ensures fault { IfFault result (IsBlifFault text.now) }
{
    match statements(alloc, text) {
        Ok(all) => judged(alloc, &all),
        Err(Or::Memory) => Err(Or::Memory),
        Err(Or::Fault(line)) => Err(Or::Fault(BlifFault {
            code: BlifCode::B01,
            line,
        })),
    }
}
