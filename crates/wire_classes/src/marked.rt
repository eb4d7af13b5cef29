//! The marked wires, the keys of their bits, and their labels.
ghost use Rattle.std.specs.Prelude.{◌≡◌, ◌+◌, ◌<◌, ℕ, length, map, IfOk, OnOk, Some, slice_get};
ghost use Rattle.wire_classes.specs.Closed.{bits_in, label_of};
ghost use Rattle.wire_classes.specs.Keys.{AreMarked, known_key};

use crate::keys::known_key;
use crate::labels::{bits_at, label, mark};
use chw_base::{Name, NoMemory};
use chw_bits::Bits;
use std::alloc::Global;

// Adds a wire, if it is marked.
fn add(known: &[bool], w: u32, wires: &mut Vec<u32>) -> Result<(), NoMemory>
    requires { AreMarked known.now w wires.old.items }
    ensures { OnOk result (AreMarked known.now (w + 1) wires.new.items) }
{
    if !mark(known, w) {
        return Ok(());
    }
    wires.push(w)?;
    Ok(())
}

/// The marked ones of so many wires, in order.
pub(crate) fn marked_wires(alloc: Global, known: &[bool], count: u32) -> Result<Vec<u32>, NoMemory>
    ensures { IfOk result (λ wires. AreMarked known.now count wires.items) }
{
    let mut wires = Vec::new(alloc);
    for w in 0..count {
        add(known, w, &mut wires)?;
    }
    Ok(wires)
}

/// The keys of these wires' bits.
pub(crate) fn keys_of(alloc: Global, values: &[Bits], wires: &[u32]) -> Result<Vec<Name>, NoMemory>
    requires { (i w : ℕ) → slice_get wires.now i ≡ Some w → w < length values.now }
    ensures { IfOk result (λ keys.
        keys.items ≡ map (λ w. known_key (bits_in values.now w)) wires.now) }
{
    let mut keys = Vec::new(alloc);
    for w in wires {
        keys.push(known_key(alloc, bits_at(values, *w))?)?;
    }
    Ok(keys)
}

/// The labels of these wires.
pub(crate) fn labels_of(alloc: Global, of: &[u32], wires: &[u32]) -> Result<Vec<u32>, NoMemory>
    ensures { IfOk result (λ labels. labels.items ≡ map (label_of of.now) wires.now) }
{
    let mut labels = Vec::new(alloc);
    for w in wires {
        labels.push(label(of, *w as usize))?;
    }
    Ok(labels)
}
