//! What is built so far, and the wires of bindings.
//!
//! Those of a letrec are wanted before its right sides are built.
ghost use Rattle.std.specs.Prelude.{◌≡◌, ◌<◌, ◌↔◌, [], length, slice_index_or, IfOk, IsTrue};
ghost use Rattle.value_build.specs.Drafting.{IsFilled, IsOpened};

use chw_base::{NoMemory, Seq, WireId};
use net_pieces::Pieces;
use std::alloc::Global;

/// The wires of a letrec's bindings.
pub type Wires = Vec<Seq<WireId>>;

/// Those of letrecs, in the order of the text.
pub(crate) type Letrecs = Vec<Seq<Seq<WireId>>>;

/// What is built so far: the cells, and the wires of the bindings of each letrec.
#[derive(Drop)]
pub(crate) struct Draft {
    pub(crate) into: Pieces,
    pub(crate) found: Letrecs,
}

impl Draft {
    /// Makes a place for the wires of the next letrec's bindings, and gives its number.
    pub(crate) fn make_place(&mut self, alloc: Global) -> Result<usize, NoMemory>
        ensures { IfOk result (IsOpened self.old self.new) }
    {
        let place = self.found.len();
        self.found.push(Seq::from(Vec::new(alloc)))?;
        Ok(place)
    }

    /// Puts the wires of a letrec's bindings at their place.
    pub(crate) fn fill(&mut self, place: usize, wires: Wires)
        requires { place < length self.old.found.items }
        ensures { IsFilled self.old self.new place wires.items }
    {
        self.found[place] = Seq::from(wires);
    }
}

// Whether two lists of wires are equal.
fn same_wires(a: &[WireId], b: &[WireId]) -> bool
    ensures { IsTrue result ↔ a.now ≡ b.now }
{
    if a.len() != b.len() {
        return false;
    }
    for (i, w) in a.iter().enumerate() {
        if w.number != b[i].number {
            return false;
        }
    }
    true
}

// Whether two lists of lists of wires are equal.
fn all_same(a: &[Seq<WireId>], b: &[Seq<WireId>]) -> bool
    ensures { IsTrue result ↔ a.now ≡ b.now }
{
    if a.len() != b.len() {
        return false;
    }
    for (i, wires) in a.iter().enumerate() {
        if !same_wires(wires.as_slice(), b[i].as_slice()) {
            return false;
        }
    }
    true
}

/// Whether the wires of letrecs are found as they were known.
pub(crate) fn are_found(known: &[Seq<Seq<WireId>>], found: &[Seq<Seq<WireId>>]) -> bool
    ensures { IsTrue result ↔ known.now ≡ found.now }
{
    if known.len() != found.len() {
        return false;
    }
    for (i, wires) in known.iter().enumerate() {
        if !all_same(wires.as_slice(), found[i].as_slice()) {
            return false;
        }
    }
    true
}

/// The wires that are known of the bindings of the letrec of this number; none where none are.
pub(crate) fn known_at(known: &[Seq<Seq<WireId>>], place: usize) -> &[Seq<WireId>]
    ensures { result.now ≡ slice_index_or known.now place [] }
{
    if known.len() <= place {
        return &[];
    }
    known[place].as_slice()
}
