//! What a variable becomes where a walk renumbers it.
ghost use Rattle.std.specs.Prelude.{◌≡◌, ◌+◌, IfOk, OnOk};
ghost use Rattle.chw_types.specs.TypeMoves.{Renaming, lift_by};
ghost use Rattle.chw_terms.specs.TermMoves.{exchanged};

use chw_base::{NoMemory, VarIx};

/// What a walk makes of the variables of a term.
pub trait Renumbering {
    ghost renaming: { Self → Renaming };

    /// What becomes of the variable of this number.
    fn renumbered(&self, x: u32) -> Result<u32, NoMemory>
        ensures { IfOk result (λ y. y ≡ renaming self.now x) };
}

// Each is raised by the number.
#[derive(Clone, Copy)]
pub(crate) struct Raising {
    pub(crate) by: u32,
}

impl Renumbering for Raising {
    ghost renaming = { λ r x. x + r.by };

    fn renumbered(&self, x: u32) -> Result<u32, NoMemory> {
        deeper(x, self.by)
    }
}

// The first so many and the next so many change places.
#[derive(Clone, Copy)]
pub(crate) struct Exchanging {
    pub(crate) first: u32,
    pub(crate) next: u32,
}

impl Renumbering for Exchanging {
    ghost renaming = { λ r. exchanged r.first r.next };

    fn renumbered(&self, x: u32) -> Result<u32, NoMemory> {
        exchange(x, self.first, self.next)
    }
}

// A place under so many more binders.
pub(crate) fn deeper(place: u32, binders: u32) -> Result<u32, NoMemory>
    ensures { IfOk result (λ n. n ≡ place + binders) }
{
    place.checked_add(binders).ok_or(NoMemory)
}

// The variable, where the first and the next change places.
fn exchange(x: u32, first: u32, next: u32) -> Result<u32, NoMemory>
    ensures { IfOk result (λ y. y ≡ exchanged first next x) }
{
    if x < first {
        deeper(x, next)
    } else if x - first < next {
        Ok(x - first)
    } else {
        Ok(x)
    }
}

// The variable is renumbered, where the walk has come to this place.
pub(crate) fn renumber<R: Renumbering>(x: &mut VarIx, how: &R, from: u32) -> Result<(), NoMemory>
    ensures { OnOk result (x.new.number ≡ lift_by from (R.renaming how.now) x.old.number) }
{
    x.number = renumbered_from(x.number, how, from)?;
    Ok(())
}

// What becomes of this variable, where the walk has come to this place.
fn renumbered_from<R: Renumbering>(x: u32, how: &R, from: u32) -> Result<u32, NoMemory>
    ensures { IfOk result (λ y. y ≡ lift_by from (R.renaming how.now) x) }
{
    if x < from {
        return Ok(x);
    }
    let outer = how.renumbered(x - from)?;
    deeper(outer, from)
}
