//! What the rule that puts a right side for its name makes of a letrec.
ghost use Rattle.std.specs.Prelude.{◌≡◌, ◌++◌, map, IfOk, MatchBool, OnOk};
ghost use Rattle.chw_types.specs.References.{HasNoCycle};
ghost use Rattle.chw_terms.specs.declared.rule.Rule.TheVariants.{Inline};
ghost use Rattle.chw_terms.specs.TermView.{group_of, tree_of};
ghost use Rattle.rewriting.specs.Origins.{origins_of};
ghost use Rattle.rewriting.specs.Spots.{spot_of};
ghost use Rattle.rewriting.specs.Lets.{inlined};
ghost use Rattle.rule_parts.specs.Cores.{AnswersCore};
ghost use Rattle.work_lets.specs.Inlined.{Goes, Stays, AnswersFirst, put_in, put_for_name};

use crate::groups::{is_of_head, or_body};
use chw_base::{NoMemory, VarIx, narrow};
use chw_terms::{Binding, Head, Mode, Place, Scene, Term, lower, occurs, put_here};
use chw_types::Data;
use rule_parts::named::is_named;
use std::alloc::Global;

// Whether a binding, behind which so many more stand, is one that is put for its name: its type isn't named, and it doesn't occur in its
// own right side.
fn goes(
    alloc: Global,
    datas: &[Data],
    mode: Mode,
    binding: &Binding,
    behind: u32,
) -> Result<bool, NoMemory>
    requires { HasNoCycle datas.now }
    ensures { IfOk result (λ is. MatchBool is (Goes datas.now mode binding.now behind) (Stays datas.now mode binding.now behind)) }
{
    if is_named(alloc, datas, mode, &binding.ty)? {
        return Ok(false);
    }
    Ok(!occurs(&binding.body, VarIx { number: behind }))
}

// The place of the first such binding.
fn first_that_goes(
    alloc: Global,
    datas: &[Data],
    mode: Mode,
    bindings: &[Binding],
) -> Result<Option<usize>, NoMemory>
    requires { HasNoCycle datas.now }
    ensures { IfOk result (AnswersFirst datas.now mode bindings.now) }
{
    let count = narrow(bindings.len())?;
    for n in 0..count {
        if goes(alloc, datas, mode, &bindings[n as usize], count - 1 - n)? {
            return Ok(Some(n as usize));
        }
    }
    Ok(None)
}

// The binding with the term put for the variable.
fn put_in_binding(
    alloc: Global,
    binding: &Binding,
    at: VarIx,
    term: &Term,
) -> Result<Binding, NoMemory>
    ensures { IfOk result (λ b. b ≡ put_in at.number term.now binding.now) }
{
    let ty = binding.ty.copy(alloc)?;
    let body = put_here(alloc, &binding.body, at, term)?;
    Ok(Binding { ty, body })
}

// The same of each of these bindings, behind those that are there.
fn put_in_each(
    alloc: Global,
    bindings: &[Binding],
    at: VarIx,
    term: &Term,
    group: &mut Vec<Binding>,
) -> Result<(), NoMemory>
    ensures { OnOk result (group.new.items ≡ group.old.items ++ map (put_in at.number term.now) bindings.now) }
{
    for binding in bindings {
        group.push(put_in_binding(alloc, binding, at, term)?)?;
    }
    Ok(())
}

// The letrec of these two groups, with the term put for the variable.
fn put_for_name(
    alloc: Global,
    front: &[Binding],
    back: &[Binding],
    body: &Term,
    at: VarIx,
    term: &Term,
) -> Result<Term, NoMemory>
    ensures { IfOk result (λ e. e ≡ put_for_name front.now back.now body.now at.number term.now) }
{
    let mut group = Vec::new(alloc);
    put_in_each(alloc, front, at, term, &mut group)?;
    put_in_each(alloc, back, at, term, &mut group)?;
    let body = put_here(alloc, body, at, term)?;
    or_body(alloc, group, body)
}

// The letrec without the binding between these two groups, with its right side put for its name.
fn inlined(
    alloc: Global,
    front: &[Binding],
    side: &Term,
    back: &[Binding],
    body: &Term,
) -> Result<Term, NoMemory>
    ensures { IfOk result (λ e. e ≡ inlined (group_of front.now) side.now (group_of back.now) body.now) }
{
    let at = VarIx {
        number: narrow(back.len())?,
    };
    let side = lower(alloc, side, at)?;
    let outcome = put_for_name(alloc, front, back, body, at, &side);
    drop(side);
    outcome
}

/// letrec { front; t = x; back } in e ==> letrec { front'; back' } in e', where x is put for its name. That is the first binding whose type
/// isn't named and that doesn't occur in its own right side. Not at heads.
pub(crate) fn inline(
    alloc: Global,
    scene: &Scene,
    place: &Place,
    head: &Head,
) -> Result<Option<Term>, NoMemory>
    requires { HasNoCycle scene.now.program.now.datas }
    ensures { IfOk result (AnswersCore (origins_of scene.now) (spot_of place.now) Inline (tree_of head.now)) }
{
    if is_of_head(place.mode) {
        return Ok(None);
    }
    let Head::LetRec(bindings, body) = head else {
        return Ok(None);
    };
    let datas = scene.program.datas.as_slice();
    let Some(at) = first_that_goes(alloc, datas, place.mode, bindings)? else {
        return Ok(None);
    };
    let (front, others) = bindings.split_at(at);
    let Some((it, back)) = others.split_first() else {
        return Ok(None);
    };
    Ok(Some(inlined(alloc, front, &it.body, back, body)?))
}
