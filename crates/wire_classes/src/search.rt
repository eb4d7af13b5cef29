//! Labels and marks, found cell by cell. A cell is looked at again where what it reads got another
//! label or a mark.
ghost use Rattle.std.specs.Prelude.{◌≡◌, ◌<◌, ℕ, Bool, List, length, true, IfOk, OnOk, Some};
ghost use Rattle.netlist.specs.Feeds.{target_at};
ghost use Rattle.share_laws.specs.Same.{IsKnown, Same};
ghost use Rattle.wire_classes.specs.Closed.{AreFound};

use crate::copies::copied_by;
use crate::keys::{hash_of, set_cell_key};
use crate::labels::{bits_at, cell_at, label, mark, wire_at};
use crate::marks::gives_known;
use crate::work::{Work, hash_of_bits};
use chw_base::{NoMemory, WireId};
use chw_bits::Bits;
use netlist::{Cell, Flat, Order};
use std::alloc::Global;

/// What is searched: a flat net, and the bits that its wires have where they are known.
#[derive(Clone, Copy)]
struct Scene<'a> {
    flat: &'a Flat,
    values: &'a [Bits],
}

// Labels lead on at most so often, since the smaller class goes to the larger one.
const STEPS: u32 = 64;

// The wire to which labels lead.
fn find(scene: &Scene<'_>, of: &[u32], known: &[bool], w: u32) -> u32
    requires found { AreFound scene.now.flat.now of.now known.now scene.now.values.now }
    requires within { w < length scene.now.flat.now.widths }
    ensures { Same scene.now.flat.now w result }
{
    let mut root = w;
    for _step in 0..STEPS {
        let up = label(of, root as usize);
        if up == root {
            return root;
        }
        root = up;
    }
    root
}

// Gives a wire the label of an equal one.
fn put_label(scene: &Scene<'_>, of: &mut [u32], known: &[bool], w: u32, n: u32)
    requires found { AreFound scene.now.flat.now of.old known.now scene.now.values.now }
    requires same { Same scene.now.flat.now w n }
    ensures { AreFound scene.now.flat.now of.new known.now scene.now.values.now }
{
    of[w as usize] = n;
}

// Marks a wire, if one is marked that is equal to it.
fn carry(scene: &Scene<'_>, of: &[u32], known: &mut [bool], w: u32, n: u32)
    requires found { AreFound scene.now.flat.now of.now known.old scene.now.values.now }
    requires same { Same scene.now.flat.now w n }
    ensures { AreFound scene.now.flat.now of.now known.new scene.now.values.now }
{
    if mark(known, w) {
        known[n as usize] = true;
    }
}

// Gives a wire that exists the label to which its own leads, and the mark of that.
fn compress(scene: &Scene<'_>, of: &mut [u32], known: &mut [bool], w: u32)
    requires { AreFound scene.now.flat.now of.old known.old scene.now.values.now }
    ensures { AreFound scene.now.flat.now of.new known.new scene.now.values.now }
{
    if (w as usize) < scene.flat.widths.len() {
        let root = find(scene, of, known, w);
        put_label(scene, of, known, w, root);
        carry(scene, of, known, root, w);
    }
}

// The same for each of these wires.
fn compress_all(scene: &Scene<'_>, of: &mut [u32], known: &mut [bool], wires: &[WireId])
    requires { AreFound scene.now.flat.now of.old known.old scene.now.values.now }
    ensures { AreFound scene.now.flat.now of.new known.new scene.now.values.now }
{
    for w in wires {
        compress(scene, of, known, w.number);
    }
}

// The same for each wire that a cell reads.
fn compress_reads(scene: &Scene<'_>, of: &mut [u32], known: &mut [bool], cell: &Cell)
    requires { AreFound scene.now.flat.now of.old known.old scene.now.values.now }
    ensures { AreFound scene.now.flat.now of.new known.new scene.now.values.now }
{
    match cell {
        Cell::Const(_, _) => {}
        Cell::Copy(_, a) => compress(scene, of, known, a.number),
        Cell::Join(_, parts) => compress_all(scene, of, known, parts.as_slice()),
        Cell::Cut(_, a, _, _) => compress(scene, of, known, a.number),
        Cell::Un(_, _, a) => compress(scene, of, known, a.number),
        Cell::Bin(_, _, a, b) => compress_all(scene, of, known, &[*a, *b]),
        Cell::Mux(_, c, a, b) => compress_all(scene, of, known, &[*c, *a, *b]),
        Cell::Reg(_, _, _, a) => compress(scene, of, known, a.number),
        Cell::Ram(_, _, _, all) => {
            let reads = [all.read, all.enable, all.place, all.value];
            compress_all(scene, of, known, &reads)
        }
        Cell::Use(_, reads, _) => compress_all(scene, of, known, reads.as_slice()),
    }
}

// The class of the first wire goes to that of the second, which is equal.
fn link(
    work: &mut Work,
    scene: &Scene<'_>,
    of: &mut [u32],
    known: &mut [bool],
    from: u32,
    to: u32,
) -> Result<(), NoMemory>
    requires found { AreFound scene.now.flat.now of.old known.old scene.now.values.now }
    requires same { Same scene.now.flat.now from to }
    ensures { OnOk result (AreFound scene.now.flat.now of.new known.new scene.now.values.now) }
{
    work.wake(from)?;
    if mark(known, from) && !mark(known, to) {
        work.wake(to)?;
    }
    put_label(scene, of, known, from, to);
    carry(scene, of, known, from, to);
    work.join(from, to);
    Ok(())
}

// The classes of two equal wires become one.
fn join(
    work: &mut Work,
    scene: &Scene<'_>,
    of: &mut [u32],
    known: &mut [bool],
    v: u32,
    w: u32,
) -> Result<(), NoMemory>
    requires found { AreFound scene.now.flat.now of.old known.old scene.now.values.now }
    requires same { Same scene.now.flat.now v w }
    ensures { OnOk result (AreFound scene.now.flat.now of.new known.new scene.now.values.now) }
{
    let one = find(scene, of, known, v);
    let other = find(scene, of, known, w);
    if one == other {
        return Ok(());
    }
    if work.is_smaller(one, other) {
        link(work, scene, of, known, one, other)
    } else {
        link(work, scene, of, known, other, one)
    }
}

// Whether two wires are marked and have the same bits.
fn have_same_bits(scene: &Scene<'_>, of: &[u32], known: &[bool], v: u32, w: u32) -> bool
    requires { AreFound scene.now.flat.now of.now known.now scene.now.values.now }
    ensures { result ≡ true → Same scene.now.flat.now v w }
{
    if v as usize >= scene.values.len() || w as usize >= scene.values.len() {
        return false;
    }
    if !mark(known, v) || !mark(known, w) {
        return false;
    }
    bits_at(scene.values, v).as_slice() == bits_at(scene.values, w).as_slice()
}

// The wire that was seen first with the bits of this one.
fn first_of_bits(work: &mut Work, values: &[Bits], w: u32) -> Result<u32, NoMemory> {
    match values.get(w as usize) {
        Some(bits) => work.first_wire(hash_of_bits(bits.as_slice()), w),
        None => Ok(w),
    }
}

// Marks a wire of which bits are known, and joins it with another one of the same bits.
fn learn(
    work: &mut Work,
    scene: &Scene<'_>,
    of: &mut [u32],
    known: &mut [bool],
    w: u32,
) -> Result<(), NoMemory>
    requires found { AreFound scene.now.flat.now of.old known.old scene.now.values.now }
    requires known { (bits : List Bool) × IsKnown scene.now.flat.now w bits }
    ensures { OnOk result (AreFound scene.now.flat.now of.new known.new scene.now.values.now) }
{
    if mark(known, w) {
        return Ok(());
    }
    known[w as usize] = true;
    let root = find(scene, of, known, w);
    carry(scene, of, known, w, root);
    work.wake(root)?;
    let first = first_of_bits(work, scene.values, w)?;
    if have_same_bits(scene, of, known, first, w) {
        join(work, scene, of, known, first, w)?;
    }
    Ok(())
}

// The place that was seen first with the key of the cell at this one.
fn first_of_cells(work: &mut Work, flat: &Flat, of: &[u32], place: u32) -> Result<u32, NoMemory>
    requires { place < length flat.now.cells }
{
    set_cell_key(&mut work.one, of, cell_at(flat, place))?;
    let hash = hash_of(&work.one);
    work.first_cell(hash, place)
}

// Whether the cells at two places have one key.
fn are_alike(
    work: &mut Work,
    scene: &Scene<'_>,
    of: &[u32],
    known: &[bool],
    p: u32,
    q: u32,
) -> Result<bool, NoMemory>
    requires found { AreFound scene.now.flat.now of.now known.now scene.now.values.now }
    requires one { p < length scene.now.flat.now.cells }
    requires other { q < length scene.now.flat.now.cells }
    ensures { IfOk result (λ same. same ≡ true → (v w : ℕ)
        → target_at scene.now.flat.now.cells p ≡ Some v
        → target_at scene.now.flat.now.cells q ≡ Some w → Same scene.now.flat.now v w) }
{
    set_cell_key(&mut work.one, of, cell_at(scene.flat, p))?;
    set_cell_key(&mut work.other, of, cell_at(scene.flat, q))?;
    Ok(work.one.as_slice() == work.other.as_slice())
}

// Joins the wire of a cell with that of an equal cell.
fn look(
    work: &mut Work,
    scene: &Scene<'_>,
    of: &mut [u32],
    known: &mut [bool],
    place: u32,
) -> Result<(), NoMemory>
    requires found { AreFound scene.now.flat.now of.old known.old scene.now.values.now }
    requires within { place < length scene.now.flat.now.cells }
    ensures { OnOk result (AreFound scene.now.flat.now of.new known.new scene.now.values.now) }
{
    let first = first_of_cells(work, scene.flat, of, place)?;
    if first == place || first as usize >= scene.flat.cells.len() {
        return Ok(());
    }
    compress_reads(scene, of, known, cell_at(scene.flat, first));
    if are_alike(work, scene, of, known, first, place)? {
        let v = wire_at(scene.flat, first);
        let w = wire_at(scene.flat, place);
        join(work, scene, of, known, v, w)?;
    }
    Ok(())
}

// Looks at the cell at this place.
fn visit(
    work: &mut Work,
    scene: &Scene<'_>,
    of: &mut [u32],
    known: &mut [bool],
    place: u32,
) -> Result<(), NoMemory>
    requires found { AreFound scene.now.flat.now of.old known.old scene.now.values.now }
    requires within { place < length scene.now.flat.now.cells }
    ensures { OnOk result (AreFound scene.now.flat.now of.new known.new scene.now.values.now) }
{
    let w = wire_at(scene.flat, place);
    let cell = cell_at(scene.flat, place);
    compress_reads(scene, of, known, cell);
    if let Some(a) = copied_by(scene.flat, of, known, scene.values, cell) {
        return join(work, scene, of, known, w, a.number);
    }
    if gives_known(known, cell) {
        return learn(work, scene, of, known, w);
    }
    look(work, scene, of, known, place)
}

// Looks at all cells that wait.
fn visit_all(
    work: &mut Work,
    scene: &Scene<'_>,
    of: &mut [u32],
    known: &mut [bool],
) -> Result<(), NoMemory>
    requires { AreFound scene.now.flat.now of.old known.old scene.now.values.now }
    ensures { OnOk result (AreFound scene.now.flat.now of.new known.new scene.now.values.now) }
{
    for _turn in 0..u64::MAX {
        let Some(place) = work.next_place() else {
            return Ok(());
        };
        if (place as usize) < scene.flat.cells.len() {
            visit(work, scene, of, known, place)?;
        }
    }
    Ok(())
}

/// Finds labels and marks, from the first ones on.
pub(crate) fn search(
    alloc: Global,
    flat: &Flat,
    order: &Order,
    of: &mut [u32],
    known: &mut [bool],
    values: &[Bits],
) -> Result<(), NoMemory>
    requires { AreFound flat.now of.old known.old values.now }
    ensures { OnOk result (AreFound flat.now of.new known.new values.now) }
{
    let mut work = Work::open(alloc, flat, order.cells.as_slice())?;
    let scene = Scene { flat, values };
    let outcome = visit_all(&mut work, &scene, of, known);
    drop(work);
    outcome?;
    for w in 0..flat.widths.len() as u32 {
        compress(&scene, of, known, w);
    }
    Ok(())
}
