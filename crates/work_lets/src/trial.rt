//! The rules that take bindings out of a letrec, tried on a term at a place.
ghost use Rattle.std.specs.Prelude.{IfOk};
ghost use Rattle.chw_types.specs.References.{HasNoCycle};
ghost use Rattle.chw_terms.specs.TermView.{tree_of};
ghost use Rattle.rewriting.specs.Origins.{origins_of};
ghost use Rattle.rewriting.specs.Spots.{spot_of};
ghost use Rattle.rule_parts.specs.Cores.{Answers, AnswersCore};
ghost use Rattle.work_lets.specs.Rules.{IsOfWorkLets};

use crate::dead::dead;
use crate::inline::inline;
use chw_base::NoMemory;
use chw_terms::{Head, Place, Rule, Scene, Term};
use rule_parts::copies::with_rest;
use std::alloc::Global;

// What a rule makes of a head alone.
fn of_head(
    alloc: Global,
    rule: Rule,
    scene: &Scene,
    place: &Place,
    head: &Head,
) -> Result<Option<Term>, NoMemory>
    requires rule { IsOfWorkLets rule }
    requires order { HasNoCycle scene.now.program.now.datas }
    ensures { IfOk result (AnswersCore (origins_of scene.now) (spot_of place.now) rule (tree_of head.now)) }
{
    match rule {
        Rule::Dead => dead(alloc, place, head),
        Rule::Inline => inline(alloc, scene, place, head),
        _ => unreachable!(),
    }
}

/// What a rule that takes bindings out of a letrec makes of a term at a place: of its head, and the arguments stay behind. Nothing comes
/// exactly where the rule makes nothing of it.
///
/// No data type leads back to itself, as in every typed program. Time is linear in the term, but that a right side may be put for its name
/// many times. Where a number would pass 32 bits, the answer is want of memory.
pub fn try_work_lets(
    alloc: Global,
    rule: Rule,
    scene: &Scene,
    at: &Term,
    place: &Place,
) -> Result<Option<Term>, NoMemory>
    requires rule { IsOfWorkLets rule }
    requires order { HasNoCycle scene.now.program.now.datas }
    ensures { IfOk result (Answers (origins_of scene.now) (spot_of place.now) rule at.now) }
{
    let made = of_head(alloc, rule, scene, place, &at.head)?;
    with_rest(alloc, made, &at.args)
}
