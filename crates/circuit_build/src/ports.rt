//! The parts of ports: one for each leaf.
ghost use Rattle.std.specs.Prelude.{◌≡◌, ◌++◌, ℕ, List, map, IfOk, OnOk};
ghost use Rattle.chw_terms.specs.declared.scene.Sort.TheVariants.{Circuit, Value};
ghost use Rattle.type_ports.specs.Ports.{Leaves};
ghost use Rattle.type_ports.specs.declared.ports.Leaf.{Leaf as PortLeaf};
ghost use Rattle.net_built.specs.Data.{HaveWidths, HasParts};
ghost use Rattle.net_built.specs.Wires.{wire_count};

use chw_base::NoMemory;
use chw_terms::Sort;
use chw_types::Ty;
use net_pieces::parts;
use std::alloc::Global;
use type_ports::{Leaf, leaves};
use value_build::Base;

/// The leaves of a port.
pub fn port_leaves(alloc: Global, base: &Base<'_>, t: &Ty) -> Result<Vec<Leaf>, NoMemory>
    requires port { (ls : List PortLeaf) × Leaves base.now.datas t.now ls }
    ensures { IfOk result (λ ls. Leaves base.now.datas t.now ls.items) }
{
    match leaves(alloc, t, base.datas())? {
        Some(leaves) => Ok(leaves),
        None => unreachable!(),
    }
}

// The widths of the payloads of leaves.
fn payload_widths(alloc: Global, base: &mut Base<'_>, leaves: &[Leaf]) -> Result<Vec<u32>, NoMemory>
    requires measured { (ws : List ℕ) × HaveWidths base.old.datas (map (λ l. l.payload) leaves.now) ws }
    ensures widths { IfOk result (λ ws. HaveWidths base.old.datas (map (λ l. l.payload) leaves.now) ws.items) }
    ensures same { base.new ≡ base.old }
{
    let mut widths = Vec::new(alloc);
    for leaf in leaves {
        widths.push(base.width(alloc, &leaf.payload)?)?;
    }
    Ok(widths)
}

/// The widths of the parts of a port.
pub(crate) fn port_parts(alloc: Global, base: &mut Base<'_>, t: &Ty) -> Result<Vec<u32>, NoMemory>
    requires port { (ws : List ℕ) × HasParts base.old.datas Circuit t.now ws }
    ensures parts { IfOk result (λ ws. HasParts base.old.datas Circuit t.now ws.items) }
    ensures same { base.new ≡ base.old }
{
    let leaves = port_leaves(alloc, base, t)?;
    let widths = payload_widths(alloc, base, &leaves);
    drop(leaves);
    widths
}

/// The widths of the parts of a variable of this type: of a value one, of a port one for each leaf.
pub fn parts_of(
    alloc: Global,
    base: &mut Base<'_>,
    sort: Sort,
    t: &Ty,
) -> Result<Vec<u32>, NoMemory>
    requires parts { (ws : List ℕ) × HasParts base.old.datas sort t.now ws }
    ensures parts { IfOk result (λ ws. HasParts base.old.datas sort t.now ws.items) }
    ensures same { base.new ≡ base.old }
{
    match sort {
        Sort::Circuit => port_parts(alloc, base, t),
        Sort::Value => value_parts(alloc, base, t),
    }
}

// The width of the one part of a value.
fn value_parts(alloc: Global, base: &mut Base<'_>, t: &Ty) -> Result<Vec<u32>, NoMemory>
    requires parts { (ws : List ℕ) × HasParts base.old.datas Value t.now ws }
    ensures parts { IfOk result (λ ws. HasParts base.old.datas Value t.now ws.items) }
    ensures same { base.new ≡ base.old }
{
    let width = base.width(alloc, t)?;
    let mut widths = Vec::new(alloc);
    widths.push(width)?;
    Ok(widths)
}

/// How many of parts of these widths have a wire.
pub fn count_wires(widths: &[u32]) -> Result<u32, NoMemory>
    ensures { IfOk result (λ n. n ≡ wire_count widths.now) }
{
    let mut count = 0;
    for w in widths {
        count = parts::sum(count, (*w).min(1))?;
    }
    Ok(count)
}
