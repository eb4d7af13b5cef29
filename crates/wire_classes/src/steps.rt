//! Steps by which labels and marks become those of all equal and all known wires.
ghost use Rattle.std.specs.Prelude.{◌≡◌, ◌<◌, Bool, List, false, map, IfNone, IfOk, IfSome, OnOk};
ghost use Rattle.share_laws.specs.Same.{IsKnown, Same};
ghost use Rattle.wire_classes.specs.Closed.{AreClosed, AreFound, AreQuick, label_of, mark_of};
ghost use Rattle.wire_classes.specs.Steps.{IsStep, left_of, relabelled};

use crate::cells::{bits_step, cells_step};
use crate::copies::copies_step;
use crate::labels::label;
use crate::marks::{labels_step, marks_step};
use chw_base::NoMemory;
use chw_bits::Bits;
use netlist::Flat;
use std::alloc::Global;

/// What is found next.
#[derive(Clone, Copy, Debug)]
pub(crate) enum Step {
    /// Two equal wires have different labels.
    Merge(u32, u32),
    /// Bits of a wire are known which isn't marked.
    Mark(u32),
}

// A step, if one is left that takes no memory to find.
fn quick_step(flat: &Flat, of: &[u32], known: &[bool], values: &[Bits]) -> Option<Step>
    requires { AreFound flat.now of.now known.now values.now }
    ensures none { IfNone result (AreQuick flat.now of.now known.now values.now) }
    ensures some { IfSome result (IsStep flat.now of.now known.now) }
{
    if let Some(step) = marks_step(flat, of, known, values) {
        return Some(step);
    }
    if let Some(step) = labels_step(flat, of, known, values) {
        return Some(step);
    }
    copies_step(flat, of, known, values)
}

// A step, if one is left.
fn next_step(
    alloc: Global,
    flat: &Flat,
    of: &[u32],
    known: &[bool],
    values: &[Bits],
) -> Result<Option<Step>, NoMemory>
    requires { AreFound flat.now of.now known.now values.now }
    ensures none { IfOk result (λ o. IfNone o (AreClosed flat.now of.now known.now values.now)) }
    ensures some { IfOk result (λ o. IfSome o (IsStep flat.now of.now known.now)) }
{
    if let Some(step) = quick_step(flat, of, known, values) {
        return Ok(Some(step));
    }
    if let Some(step) = bits_step(alloc, flat, of, known, values)? {
        return Ok(Some(step));
    }
    cells_step(alloc, flat, of, known, values)
}

// The second label in place of the first.
fn relabelled(from: u32, to: u32, label: u32) -> u32
    ensures { result ≡ relabelled from to label }
{
    if label == from { to } else { label }
}

// Puts the second label in place of the first.
fn relabel(of: &mut [u32], from: u32, to: u32)
    ensures { of.new ≡ map (relabelled from to) of.old }
{
    for w in 0..of.len() {
        of[w] = relabelled(from, to, of[w]);
    }
}

// Gives two equal wires one label, the lesser one of theirs.
fn merge(flat: &Flat, v: u32, w: u32, of: &mut [u32], known: &[bool], values: &[Bits])
    requires found { AreFound flat.now of.old known.now values.now }
    requires same { Same flat.now v w }
    requires apart { label_of of.old v ≡ label_of of.old w → ⊥ }
    ensures found { AreFound flat.now of.new known.now values.now }
    ensures less { left_of of.new known.now < left_of of.old known.now }
{
    let one = label(of, v as usize);
    let other = label(of, w as usize);
    if one < other {
        relabel(of, other, one);
    } else {
        relabel(of, one, other);
    }
}

// Marks a wire of which bits are known.
fn set_mark(flat: &Flat, w: u32, of: &[u32], known: &mut [bool], values: &[Bits])
    requires found { AreFound flat.now of.now known.old values.now }
    requires bits { (bits : List Bool) × IsKnown flat.now w bits }
    requires none { mark_of known.old w ≡ false }
    ensures found { AreFound flat.now of.now known.new values.now }
    ensures less { left_of of.now known.new < left_of of.now known.old }
{
    known[w as usize] = true;
}

// Takes a step.
fn take(flat: &Flat, step: Step, of: &mut [u32], known: &mut [bool], values: &[Bits])
    requires found { AreFound flat.now of.old known.old values.now }
    requires step { IsStep flat.now of.old known.old step }
    ensures found { AreFound flat.now of.new known.new values.now }
    ensures less { left_of of.new known.new < left_of of.old known.old }
{
    match step {
        Step::Merge(v, w) => merge(flat, v, w, of, known, values),
        Step::Mark(w) => set_mark(flat, w, of, known, values),
    }
}

/// Takes steps until none is left.
pub(crate) fn close(
    alloc: Global,
    flat: &Flat,
    of: &mut [u32],
    known: &mut [bool],
    values: &[Bits],
) -> Result<(), NoMemory>
    requires { AreFound flat.now of.old known.old values.now }
    ensures found { OnOk result (AreFound flat.now of.new known.new values.now) }
    ensures closed { OnOk result (AreClosed flat.now of.new known.new values.now) }
{
    'steps: while let Some(step) = next_step(alloc, flat, of, known, values)? {
        take(flat, step, of, known, values);
    }
    Ok(())
}
