//! The parts of a letrec: the right sides of named types, and then the body.
ghost use Rattle.std.specs.Prelude.{◌≡◌, [], ◌∷◌, reverse, IfOk};
ghost use Rattle.chw_terms.specs.TermTree.{letrec};
ghost use Rattle.chw_terms.specs.TermView.{group_of};
ghost use Rattle.rewriting.specs.Origins.{origins_of};
ghost use Rattle.active_parts.specs.Grounds.{IsGround};
ghost use Rattle.active_parts.specs.Parts.{around, IsInside, FindsPart};

use crate::ground::Ground;
use crate::modes::{gives_result, has_parts};
use crate::parts::Part;
use chw_base::NoMemory;
use chw_terms::{Binding, Place, Term};
use rule_parts::named::is_named;
use std::alloc::Global;

/// The part of a letrec of this number, where it is a place. The variables of the letrec are in scope.
pub(crate) fn part_of_letrec<'t>(
    alloc: Global,
    ground: &Ground,
    bindings: &'t [Binding],
    body: &'t Term,
    number: usize,
    place: &Place,
) -> Result<Option<Part<'t>>, NoMemory>
    requires ground { IsGround ground.now }
    requires inside { IsInside place.now (letrec (group_of bindings.now) body.now) }
    ensures { IfOk result (FindsPart (origins_of ground.now.scene.now) (around place.now (letrec (group_of bindings.now) body.now)) (letrec (group_of bindings.now) body.now) (number ∷ []) (reverse place.now.vars)) }
{
    let mode = place.mode;
    if !has_parts(mode) {
        return Ok(None);
    }
    let more = Vec::new(alloc);
    if number == bindings.len() {
        let gives = gives_result(mode);
        return Ok(Some(Part {
            term: body,
            mode,
            gives,
            more,
        }));
    }
    let Some(binding) = bindings.get(number) else {
        return Ok(None);
    };
    let datas = ground.scene.program.datas.as_slice();
    if !is_named(alloc, datas, mode, &binding.ty)? {
        return Ok(None);
    }
    let term = &binding.body;
    Ok(Some(Part {
        term,
        mode,
        gives: false,
        more,
    }))
}
