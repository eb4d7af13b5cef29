//! What the rule on names makes of the name of a definition.
ghost use Rattle.std.specs.Prelude.{IfOk, IsTrue, ◌↔◌};
ghost use Rattle.chw_terms.specs.declared.rule.Rule.TheVariants.{Unfold};
ghost use Rattle.chw_terms.specs.TermView.{tree_of};
ghost use Rattle.rewriting.specs.Origins.{origins_of};
ghost use Rattle.rewriting.specs.Spots.{HasLets, spot_of};
ghost use Rattle.rule_parts.specs.Cores.{AnswersCore};

use chw_base::NoMemory;
use chw_terms::{Head, Mode, Place, Scene, Term};
use std::alloc::Global;

// Whether values or circuits are built there.
fn has_lets(mode: Mode) -> bool
    ensures { IsTrue result ↔ HasLets mode }
{
    match mode {
        Mode::V | Mode::C => true,
        Mode::HV | Mode::HC | Mode::K => false,
    }
}

/// f ==> its definition's body; the name of a made definition ==> its origin. Not where the definition may be called.
pub(crate) fn unfold(
    alloc: Global,
    scene: &Scene,
    place: &Place,
    head: &Head,
) -> Result<Option<Term>, NoMemory>
    ensures { IfOk result (AnswersCore (origins_of scene.now) (spot_of place.now) Unfold (tree_of head.now)) }
{
    if has_lets(place.mode) {
        return Ok(None);
    }
    match head {
        Head::Global(d) => match scene.program.defs.as_slice().get(d.number as usize) {
            Some(it) => Ok(Some(it.body.copy(alloc)?)),
            None => Ok(None),
        },
        Head::Made(m) => match scene.made.get(m.number as usize) {
            Some(it) => Ok(Some(it.origin.copy(alloc)?)),
            None => Ok(None),
        },
        _ => Ok(None),
    }
}
