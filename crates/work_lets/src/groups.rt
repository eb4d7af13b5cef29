//! Letrecs of which bindings went.
ghost use Rattle.std.specs.Prelude.{◌≡◌, ◌↔◌, IfOk, IsTrue};
ghost use Rattle.chw_terms.specs.TermView.{group_of};
ghost use Rattle.rewriting.specs.Shapes.{IsOfHead, or_body};

use chw_base::NoMemory;
use chw_terms::{Binding, Mode, Term};
use std::alloc::Global;

/// Whether the place is the head of a value or of a circuit.
pub(crate) fn is_of_head(mode: Mode) -> bool
    ensures { IsTrue result ↔ IsOfHead mode }
{
    match mode {
        Mode::HV | Mode::HC => true,
        Mode::V | Mode::C | Mode::K => false,
    }
}

/// The letrec; the body alone where nothing is bound.
pub(crate) fn or_body(alloc: Global, group: Vec<Binding>, body: Term) -> Result<Term, NoMemory>
    ensures { IfOk result (λ e. e ≡ or_body (group_of group.items) body) }
{
    if group.is_empty() {
        return Ok(body);
    }
    Term::letrec(alloc, group, body)
}
