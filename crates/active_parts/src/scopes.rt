//! The variables in scope at a place: more are put on before a part is entered, and taken off behind it.
ghost use Rattle.std.specs.Prelude.{◌≡◌, ◌++◌, [], take, OnOk};
ghost use Rattle.chw_terms.specs.TermView.{group_of};
ghost use Rattle.chw_typing.specs.Scopes.{declared};
ghost use Rattle.active_parts.specs.Grounds.{with_variables};

use chw_base::NoMemory;
use chw_terms::{Binding, Place};
use chw_types::Ty;
use std::alloc::Global;

/// Puts the variables of a letrec into the scope of a place.
pub fn enter_group(alloc: Global, place: &mut Place, bindings: &[Binding]) -> Result<(), NoMemory>
    ensures { OnOk result (place.new ≡ with_variables place.old (place.old.vars ++ declared (group_of bindings.now))) }
{
    for binding in bindings {
        place.vars.push(binding.ty.copy(alloc)?)?;
    }
    Ok(())
}

/// Puts variables of these types into the scope of a place.
pub fn enter(place: &mut Place, types: Vec<Ty>) -> Result<(), NoMemory>
    ensures { OnOk result (place.new ≡ with_variables place.old (place.old.vars ++ types.items)) }
{
    let count = place.vars.len();
    place.vars.insert_all(count, types)
}

/// Takes variables out of the scope of a place, so that as many are left.
pub fn leave(place: &mut Place, left: usize)
    ensures { place.new ≡ with_variables place.old (take left place.old.vars) }
{
    place.vars.truncate(left);
}
