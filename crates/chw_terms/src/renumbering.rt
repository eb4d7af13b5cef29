//! What a variable becomes where a walk renames it.
ghost use Rattle.std.specs.Prelude.{◌≡◌, IfOk};
ghost use Rattle.chw_types.specs.TypeMoves.{lift_by, raised};
ghost use Rattle.chw_terms.specs.TermMoves.{lowered, exchanged};
ghost use Rattle.chw_terms.specs.Moved.{renumbered};

use crate::moves::{Renumbering, deeper};
use chw_base::{NoMemory, VarIx};

// The variable, renamed from the place on.
pub(crate) fn renumber(x: VarIx, how: Renumbering, from: u32) -> Result<VarIx, NoMemory>
    ensures { IfOk result (λ y. y.number ≡ renumbered how from x.number) }
{
    match how {
        Renumbering::Raise(by) => raise(x, from, by),
        Renumbering::Lower => Ok(lower(x, from)),
        Renumbering::Exchange(first, next) => exchange(x, from, first, next),
    }
}

// The variable, raised if it stands at or above the place.
#[tactic(auto, using(chw_types::proofs::TypeMoved::raised_below, chw_types::proofs::TypeMoved::raised_above))]
fn raise(x: VarIx, from: u32, by: u32) -> Result<VarIx, NoMemory>
    ensures { IfOk result (λ y. y.number ≡ raised from by x.number) }
{
    if x.number < from {
        Ok(x)
    } else {
        let number = deeper(x.number, by)?;
        Ok(VarIx { number })
    }
}

// The variable, down by one if it stands above the place.
#[tactic(auto, using(crate::proofs::Renumbered::lowered_above, crate::proofs::Renumbered::lowered_below))]
fn lower(x: VarIx, from: u32) -> VarIx
    ensures { result.number ≡ lowered from x.number }
{
    if from < x.number {
        VarIx {
            number: x.number - 1,
        }
    } else {
        x
    }
}

// The variable, where the first from the place on and the next change places.
fn exchange(x: VarIx, from: u32, first: u32, next: u32) -> Result<VarIx, NoMemory>
    ensures { IfOk result (λ y. y.number ≡ lift_by from (exchanged first next) x.number) }
{
    if x.number < from {
        return Ok(x);
    }
    let place = x.number - from;
    if place < first {
        let number = deeper(x.number, next)?;
        Ok(VarIx { number })
    } else if place - first < next {
        Ok(VarIx {
            number: x.number - first,
        })
    } else {
        Ok(x)
    }
}
