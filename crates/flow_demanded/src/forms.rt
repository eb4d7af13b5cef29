//! The forms of terms that move out of arguments.
ghost use Rattle.std.specs.Prelude.{◌≡◌, ◌↔◌, IfSome, IfNone, IsTrue};
ghost use Rattle.chw_terms.specs.TermTree.{letrec, case_of};
ghost use Rattle.chw_terms.specs.TermView.{group_of, alts_of};
ghost use Rattle.rewriting.specs.Shapes.{IsLet};
ghost use Rattle.flow_demanded.specs.Forms.{HasForm, IsCase};

use chw_terms::{Alt, Binding, Head, Term};

/// What moves out of an argument.
#[derive(Clone, Copy)]
pub(crate) enum Form {
    Letrec,
    Case,
}

/// A letrec: its bindings, and its body.
#[derive(Clone, Copy)]
pub(crate) struct Letrec<'a> {
    pub(crate) group: &'a [Binding],
    pub(crate) body: &'a Term,
}

/// A case: what it looks at, and its alternatives.
#[derive(Clone, Copy)]
pub(crate) struct Case<'a> {
    pub(crate) on: &'a Term,
    pub(crate) alts: &'a [Alt],
}

/// The term as a letrec, where it is one.
pub(crate) fn as_letrec(term: &Term) -> Option<Letrec<'_>>
    ensures some { IfSome result (λ it. term.now ≡ letrec (group_of it.group.now) it.body.now) }
    ensures none { IfNone result (IsLet term.now → ⊥) }
{
    if !term.args.is_empty() {
        return None;
    }
    let Head::LetRec(group, body) = &term.head else {
        return None;
    };
    Some(Letrec {
        group: group.as_slice(),
        body,
    })
}

/// The term as a case, where it is one.
pub(crate) fn as_case(term: &Term) -> Option<Case<'_>>
    ensures some { IfSome result (λ it. term.now ≡ case_of it.on.now (alts_of it.alts.now)) }
    ensures none { IfNone result (IsCase term.now → ⊥) }
{
    if !term.args.is_empty() {
        return None;
    }
    let Head::Case(on, alts) = &term.head else {
        return None;
    };
    Some(Case {
        on,
        alts: alts.as_slice(),
    })
}

/// Whether the term has this form.
pub(crate) fn has_form(form: Form, term: &Term) -> bool
    ensures { IsTrue result ↔ HasForm form term.now }
{
    match form {
        Form::Letrec => as_letrec(term).is_some(),
        Form::Case => as_case(term).is_some(),
    }
}
