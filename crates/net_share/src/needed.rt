//! The wires that an output needs.
ghost use Rattle.std.specs.Prelude.{◌≡◌, ◌<◌, length, IfOk, OnOk};
ghost use Rattle.net_share.specs.Marking.{AreMarked, LookedAt, LooksAt, MarkLive};
ghost use Rattle.net_share.specs.Standing.{AreServers};
ghost use Rattle.netlist.specs.Sound.{Sound};
ghost use Rattle.wire_classes.specs.Classes.{AreClasses};

use crate::copying::cell_of;
use crate::marking::{Needed, mark_all, mark_reads};
use chw_base::{NoMemory, WireId};
use netlist::Flat;
use std::alloc::Global;
use wire_classes::Classes;

// Marks what a wire needs: what serves the wires that its cell reads, unless its bits are known.
fn look_at(
    flat: &Flat,
    classes: &Classes,
    servers: &[u32],
    w: u32,
    needed: &mut Needed,
) -> Result<(), NoMemory>
    requires sound { Sound flat.now }
    requires classes { AreClasses flat.now classes.now }
    requires servers { AreServers flat.now servers.now }
    requires marked { AreMarked needed.old.marks.items needed.old.found.items }
    requires count { length needed.old.marks.items ≡ length flat.now.widths }
    requires wire { w < length flat.now.widths }
    ensures { OnOk result (LooksAt flat.now servers.now w needed.old.marks.items
        needed.old.found.items needed.new.marks.items needed.new.found.items) }
{
    if classes.is_known(WireId { number: w }) {
        return Ok(());
    }
    let Some(cell) = cell_of(flat, w) else {
        return Ok(());
    };
    mark_reads(needed, servers, cell)
}

// The search, where what serves the outputs was found alone.
fn begin(alloc: Global, flat: &Flat, servers: &[u32]) -> Result<Needed, NoMemory>
    requires sound { Sound flat.now }
    requires servers { AreServers flat.now servers.now }
    ensures { IfOk result (λ n. LookedAt flat.now servers.now n.marks.items n.found.items 0) }
{
    let mut needed = Needed::none(alloc, flat.widths.len())?;
    mark_all(&mut needed, servers, flat.outputs.as_slice())?;
    Ok(needed)
}

/// By wire, whether it is needed.
///
/// What a found wire needs is looked up once, so time is linear in the wires and what they read.
pub(crate) fn needed_wires(
    alloc: Global,
    flat: &Flat,
    classes: &Classes,
    servers: &[u32],
) -> Result<Vec<bool>, NoMemory>
    requires sound { Sound flat.now }
    requires classes { AreClasses flat.now classes.now }
    requires servers { AreServers flat.now servers.now }
    ensures { IfOk result (λ marks. MarkLive flat.now marks.items) }
{
    let mut needed = begin(alloc, flat, servers)?;
    let mut next = 0;
    while next < needed.found.len() {
        let w = needed.found[next];
        look_at(flat, classes, servers, w, &mut needed)?;
        next += 1;
    }
    let Needed { marks, found } = needed;
    drop(found);
    Ok(marks)
}
