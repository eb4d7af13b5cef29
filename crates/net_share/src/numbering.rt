//! The needed wires that are no inputs, and the new numbers of wires.
ghost use Rattle.std.specs.Prelude.{◌≡◌, ℕ, ◌+◌, ◌<◌, ◌≤◌, ◌^◌, length, map, slice_index, IfOk};
ghost use Rattle.std.specs.Prelude.{OnOk, Some, slice_get};
ghost use Rattle.net_share.specs.Numbering.{AreKept, AreNumbered};
ghost use Rattle.share_laws.specs.Shares.{IsAmong, RisesFrom};

use chw_base::NoMemory;
use std::alloc::Global;

// Keeps a wire, if it is marked.
fn keep(marks: &[bool], w: u32, kept: &mut Vec<u32>) -> Result<(), NoMemory>
    requires { w < length marks.now }
    ensures { OnOk result ((inputs : ℕ) → inputs ≤ w → AreKept inputs marks.now w kept.old.items
        → AreKept inputs marks.now (w + 1) kept.new.items) }
{
    let is_marked = marks[w as usize];
    if !is_marked {
        return Ok(());
    }
    kept.push(w)?;
    Ok(())
}

/// The marked wires behind the inputs, in order.
pub(crate) fn kept_wires(alloc: Global, inputs: u32, marks: &[bool]) -> Result<Vec<u32>, NoMemory>
    requires few { length marks.now < 2 ^ 32 }
    requires inputs { inputs ≤ length marks.now }
    ensures { IfOk result (λ kept. AreKept inputs marks.now (length marks.now) kept.items) }
{
    let mut kept = Vec::new(alloc);
    for w in inputs..marks.len() as u32 {
        keep(marks, w, &mut kept)?;
    }
    Ok(kept)
}

// Of so many wires each one's own number.
fn own_numbers(alloc: Global, count: u32) -> Result<Vec<u32>, NoMemory>
    ensures count { IfOk result (λ numbers. length numbers.items ≡ count) }
    ensures own { IfOk result (λ numbers. (w : ℕ) → w < count
        → slice_get numbers.items w ≡ Some w) }
{
    let mut numbers = Vec::new(alloc);
    for w in 0..count {
        numbers.push(w)?;
    }
    Ok(numbers)
}

/// Of so many wires the new numbers: the kept ones have the next numbers behind the inputs.
pub(crate) fn new_numbers(
    alloc: Global,
    inputs: u32,
    count: u32,
    kept: &[u32],
) -> Result<Vec<u32>, NoMemory>
    requires inputs { inputs ≤ count }
    requires rises { RisesFrom inputs kept.now }
    requires below { (w : ℕ) → IsAmong kept.now w → w < count }
    ensures { IfOk result (λ numbers.
        AreNumbered inputs count kept.now numbers.items (length kept.now)) }
{
    let mut numbers = own_numbers(alloc, count)?;
    for (k, w) in kept.iter().enumerate() {
        let number = inputs + k as u32;
        numbers[*w as usize] = number;
    }
    Ok(numbers)
}

/// By wire, the new number of what serves it.
pub(crate) fn new_names(
    alloc: Global,
    numbers: &[u32],
    servers: &[u32],
) -> Result<Vec<u32>, NoMemory>
    requires { (w v : ℕ) → slice_get servers.now w ≡ Some v → v < length numbers.now }
    ensures { IfOk result (λ names.
        names.items ≡ map (λ v. slice_index numbers.now v) servers.now) }
{
    let mut names = Vec::new(alloc);
    for server in servers {
        names.push(numbers[*server as usize])?;
    }
    Ok(names)
}
