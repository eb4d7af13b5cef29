//! The variables in scope at the right sides of a letrec.
ghost use Rattle.std.specs.Prelude.{◌≡◌, ◌++◌, false, IfOk, OnOk};
ghost use Rattle.chw_terms.specs.TermView.{group_of};
ghost use Rattle.chw_typing.specs.Scopes.{declared};

use chw_base::NoMemory;
use chw_terms::{Binding, GapBuffer, Place};
use chw_types::Ty;
use std::alloc::Global;

// Copies of types, behind those that are there.
fn push_copies(alloc: Global, types: &[Ty], vars: &mut Vec<Ty>) -> Result<(), NoMemory>
    ensures { OnOk result (vars.new.items ≡ vars.old.items ++ types.now) }
{
    for ty in types {
        vars.push(ty.copy(alloc)?)?;
    }
    Ok(())
}

// A place as this one, for a term that isn't what the body gives.
pub(crate) fn inner_place(alloc: Global, place: &Place) -> Result<Place, NoMemory>
    ensures { IfOk result (λ p. p ≡ record { mode = place.now.mode; result = false; vars = place.now.vars }) }
{
    let (before, behind, last) = place.vars.parts();
    let mut vars = Vec::new(alloc);
    push_copies(alloc, before, &mut vars)?;
    push_copies(alloc, behind, &mut vars)?;
    push_copies(alloc, last, &mut vars)?;
    Ok(Place {
        mode: place.mode,
        result: false,
        vars: GapBuffer::of(alloc, vars),
    })
}

// The types of bindings.
pub(crate) fn types_of(alloc: Global, group: &[Binding]) -> Result<Vec<Ty>, NoMemory>
    ensures { IfOk result (λ types. types.items ≡ declared (group_of group.now)) }
{
    let mut types = Vec::new(alloc);
    for binding in group {
        types.push(binding.ty.copy(alloc)?)?;
    }
    Ok(types)
}
