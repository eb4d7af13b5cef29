//! What the rule on bindings that the body doesn't reach makes of a letrec.
ghost use Rattle.std.specs.Prelude.{◌≡◌, ◌↔◌, ◌⊎◌, ◌++◌, [], ◌∷◌, false, cond, length, Contains, IfOk, IsTrue, OnOk};
ghost use Rattle.chw_terms.specs.declared.rule.Rule.TheVariants.{Dead};
ghost use Rattle.chw_terms.specs.TermView.{group_of, tree_of};
ghost use Rattle.rewriting.specs.Origins.{Origins};
ghost use Rattle.rewriting.specs.Spots.{spot_of};
ghost use Rattle.rewriting.specs.Lets.{kept};
ghost use Rattle.rule_parts.specs.Cores.{AnswersCore};
ghost use Rattle.work_lets.specs.Closings.{closed_binding};
ghost use Rattle.work_lets.specs.Kept.{kept_of};

use crate::closing::{Closing, close, close_binding, closing_of};
use crate::groups::{is_of_head, or_body};
use crate::reached::reached;
use chw_base::NoMemory;
use chw_terms::{Binding, Head, Place, Term};
use std::alloc::Global;

// Whether a letrec with these marks loses a binding, or has none.
fn loses(marks: &[bool]) -> bool
    ensures { IsTrue result ↔ ((marks.now ≡ []) ⊎ Contains marks.now false) }
{
    marks.is_empty() || marks.contains(&false)
}

// The binding behind those that are there, where it is marked.
fn keep(
    alloc: Global,
    binding: &Binding,
    is_kept: bool,
    closing: &Closing,
    group: &mut Vec<Binding>,
) -> Result<(), NoMemory>
    ensures { OnOk result (group.new.items ≡ group.old.items ++ cond is_kept (closed_binding closing.now 0 binding.now ∷ []) []) }
{
    if is_kept {
        group.push(close_binding(alloc, binding, closing, 0)?)?;
    }
    Ok(())
}

// The bindings that are marked, with their variables closed up.
fn kept_bindings(
    alloc: Global,
    bindings: &[Binding],
    marks: &[bool],
    closing: &Closing,
) -> Result<Vec<Binding>, NoMemory>
    requires { length marks.now ≡ length bindings.now }
    ensures { IfOk result (λ group. group.items ≡ kept_of closing.now marks.now bindings.now) }
{
    let mut group = Vec::new(alloc);
    for n in 0..bindings.len() {
        keep(alloc, &bindings[n], marks[n], closing, &mut group)?;
    }
    Ok(group)
}

// The letrec of the bindings that are marked.
fn kept(alloc: Global, bindings: &[Binding], body: &Term, marks: &[bool]) -> Result<Term, NoMemory>
    requires { length marks.now ≡ length bindings.now }
    ensures { IfOk result (λ e. e ≡ kept marks.now (group_of bindings.now) body.now) }
{
    let closing = closing_of(alloc, marks)?;
    let group = kept_bindings(alloc, bindings, marks, &closing)?;
    let body = close(alloc, body, &closing, 0)?;
    or_body(alloc, group, body)
}

/// letrec g in e ==> letrec g' in e, where g' has the bindings of g that e reaches; e alone where there are none. Where all are reached
/// nothing is made. Not at heads.
pub(crate) fn dead(alloc: Global, place: &Place, head: &Head) -> Result<Option<Term>, NoMemory>
    ensures { IfOk result (λ r. (o : Origins) → AnswersCore o (spot_of place.now) Dead (tree_of head.now) r) }
{
    if is_of_head(place.mode) {
        return Ok(None);
    }
    let Head::LetRec(bindings, body) = head else {
        return Ok(None);
    };
    let marks = reached(alloc, bindings, body)?;
    if !loses(marks.as_slice()) {
        return Ok(None);
    }
    Ok(Some(kept(alloc, bindings, body, marks.as_slice())?))
}
