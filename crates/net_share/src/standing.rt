//! The wires that stand for others.
ghost use Rattle.std.specs.Prelude.{◌≡◌, ℕ, ◌+◌, ◌<◌, List, length, IfOk, MatchBool};
ghost use Rattle.net_share.specs.Standing.{AreServers, LeastsFrom};
ghost use Rattle.netlist.specs.Orders.{IsOrder};
ghost use Rattle.netlist.specs.Sound.{Sound};
ghost use Rattle.share_laws.specs.Shares.{IsProper};
ghost use Rattle.wire_classes.specs.Classes.{AreClasses};

use crate::copying::{cell_of, copies};
use chw_base::{NoMemory, WireId};
use netlist::Flat;
use std::alloc::Global;
use wire_classes::Classes;

// Whether a wire copies no other: it is an input, or its cell copies none.
fn is_proper(flat: &Flat, classes: &Classes, w: u32) -> bool
    requires sound { Sound flat.now }
    requires classes { AreClasses flat.now classes.now }
    requires wire { w < length flat.now.widths }
    ensures { MatchBool result (IsProper flat.now w) (IsProper flat.now w → ⊥) }
{
    match cell_of(flat, w) {
        None => true,
        Some(cell) => !copies(flat.widths.as_slice(), classes, cell),
    }
}

// Writes a wire at its class, if it copies no other.
fn note(flat: &Flat, classes: &Classes, w: u32, table: &mut Vec<u32>)
    requires sound { Sound flat.now }
    requires classes { AreClasses flat.now classes.now }
    requires wire { w < length flat.now.widths }
    requires table { length table.old.items ≡ length flat.now.widths }
    requires least { LeastsFrom flat.now classes.now.of (w + 1) table.old.items }
    ensures least { LeastsFrom flat.now classes.now.of w table.new.items }
    ensures count { length table.new.items ≡ length table.old.items }
{
    if !is_proper(flat, classes, w) {
        return;
    }
    let class = classes.class(WireId { number: w });
    table[class as usize] = w;
}

// By class, the least wire that copies no other.
fn least_by_class(alloc: Global, flat: &Flat, classes: &Classes) -> Result<Vec<u32>, NoMemory>
    requires sound { Sound flat.now }
    requires classes { AreClasses flat.now classes.now }
    ensures count { IfOk result (λ table. length table.items ≡ length flat.now.widths) }
    ensures least { IfOk result (λ table. LeastsFrom flat.now classes.now.of 0 table.items) }
{
    let count = flat.widths.len();
    let mut table = vec![in alloc; 0u32; count]?;
    for w in (0..count).rev() {
        note(flat, classes, w as u32, &mut table);
    }
    Ok(table)
}

/// By wire, the wire that stands for it.
///
/// As the net has an order, each wire is equal to one that copies no other.
pub(crate) fn servers_of(
    alloc: Global,
    flat: &Flat,
    classes: &Classes,
) -> Result<Vec<u32>, NoMemory>
    requires sound { Sound flat.now }
    requires order { (places : List ℕ) × IsOrder flat.now places }
    requires classes { AreClasses flat.now classes.now }
    ensures { IfOk result (λ servers. AreServers flat.now servers.items) }
{
    let least = least_by_class(alloc, flat, classes)?;
    let mut servers = Vec::new(alloc);
    for w in 0..flat.widths.len() as u32 {
        let class = classes.class(WireId { number: w });
        servers.push(least[class as usize])?;
    }
    Ok(servers)
}
