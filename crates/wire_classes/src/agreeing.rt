//! Cells of equal keys with different labels, found by numbers of the keys.
ghost use Rattle.std.specs.Prelude.{◌≡◌, ◌+◌, ◌<◌, ◌^◌, ℕ, List, length, map, nat_eq, true};
ghost use Rattle.std.specs.Prelude.{IfNone, IfOk, IfSome, Some, slice_get};
ghost use Rattle.indexmap.specs.IndexMap.{get};
ghost use Rattle.wire_classes.specs.Keys.{KeysAgree, cell_key};
ghost use Rattle.wire_classes.specs.Seen.{AreSeen, Finds};

use crate::keys::{hash_of, set_cell_key};
use crate::labels::{cell_at, label};
use chw_base::NoMemory;
use indexmap::IndexMap;
use netlist::Flat;
use std::alloc::Global;

/// What stands against it that equal keys have one label.
#[derive(Clone, Copy, Debug)]
pub(crate) enum Finding {
    /// The keys at these places are equal, and have two labels.
    Apart(u32, u32),
    /// Two keys have one number.
    Unclear,
}

/// The places of the keys that were seen first with their numbers, and room for two keys.
#[derive(Drop)]
struct Seen {
    firsts: IndexMap<u64, u32>,
    one: Vec<u8>,
    other: Vec<u8>,
}

// Of so many keys none was seen.
fn none_seen(alloc: Global, count: usize) -> Result<Seen, NoMemory>
    ensures { IfOk result (λ seen. (keys : List (List ℕ)) (labels : List ℕ)
        → AreSeen keys labels 0 seen.firsts) }
{
    Ok(Seen {
        firsts: IndexMap::with_capacity(alloc, count)?,
        one: Vec::new(alloc),
        other: Vec::new(alloc),
    })
}

// The place of the key that was seen first with this number.
fn first_with(firsts: &IndexMap<u64, u32>, hash: u64) -> Option<u32>
    ensures { result ≡ get nat_eq firsts.now hash }
{
    firsts.get(&hash).copied()
}

// Whether the key of the cell at this place is the first one of the two.
fn is_key_of(seen: &mut Seen, flat: &Flat, of: &[u32], place: u32) -> Result<bool, NoMemory>
    requires { place < length flat.now.cells }
    ensures same { IfOk result (λ same. same ≡ true
        → slice_get (map (cell_key of.now) flat.now.cells) place ≡ Some seen.old.one.items) }
    ensures firsts { seen.new.firsts ≡ seen.old.firsts }
{
    set_cell_key(&mut seen.other, of, cell_at(flat, place))?;
    Ok(seen.one.as_slice() == seen.other.as_slice())
}

// Looks at the key of the cell at this place, after those before it.
fn look(
    seen: &mut Seen,
    flat: &Flat,
    of: &[u32],
    labels: &[u32],
    place: u32,
) -> Result<Option<Finding>, NoMemory>
    requires seen { AreSeen (map (cell_key of.now) flat.now.cells) labels.now place
        seen.old.firsts }
    requires within { place < length flat.now.cells }
    ensures none { IfOk result (λ o. IfNone o
        (AreSeen (map (cell_key of.now) flat.now.cells) labels.now (place + 1) seen.new.firsts)) }
    ensures some { IfOk result (λ o. IfSome o
        (Finds (map (cell_key of.now) flat.now.cells) labels.now)) }
{
    set_cell_key(&mut seen.one, of, cell_at(flat, place))?;
    let hash = hash_of(&seen.one);
    let Some(first) = first_with(&seen.firsts, hash) else {
        seen.firsts.insert(hash, place)?;
        return Ok(None);
    };
    if !is_key_of(seen, flat, of, first)? {
        return Ok(Some(Finding::Unclear));
    }
    if label(labels, first as usize) == label(labels, place as usize) {
        return Ok(None);
    }
    Ok(Some(Finding::Apart(first, place)))
}

/// What stands against it that cells of equal keys have one label.
pub(crate) fn look_at_all(
    alloc: Global,
    flat: &Flat,
    of: &[u32],
    labels: &[u32],
) -> Result<Option<Finding>, NoMemory>
    requires { length flat.now.cells < 2 ^ 32 }
    ensures none { IfOk result (λ o. IfNone o
        (KeysAgree (map (cell_key of.now) flat.now.cells) labels.now)) }
    ensures some { IfOk result (λ o. IfSome o
        (Finds (map (cell_key of.now) flat.now.cells) labels.now)) }
{
    let mut seen = none_seen(alloc, flat.cells.len())?;
    for place in 0..flat.cells.len() as u32 {
        if let Some(found) = look(&mut seen, flat, of, labels, place)? {
            return Ok(Some(found));
        }
    }
    Ok(None)
}
