//! The first bodies of made definitions.
ghost use Rattle.std.specs.Prelude.{◌≡◌, IfOk};
ghost use Rattle.chw_terms.specs.TermView.{applied};
ghost use Rattle.rewriting.specs.Runs.{first_body, with_definition};

use chw_base::NoMemory;
use chw_terms::{Arg, Head, Program, Term};
use rule_parts::copies::with_rest;
use std::alloc::Global;

/// The term with copies of these arguments behind it.
pub(crate) fn with_args(alloc: Global, term: Term, args: &[Arg]) -> Result<Term, NoMemory>
    ensures { IfOk result (λ e. e ≡ applied term args.now) }
{
    match with_rest(alloc, Some(term), args)? {
        Some(made) => Ok(made),
        None => unreachable!(),
    }
}

// The head, with a definition in place of its name.
fn head_with_definition(alloc: Global, program: &Program, term: &Term) -> Result<Term, NoMemory>
    ensures { IfOk result (λ e. e ≡ with_definition program.now term.now) }
{
    let Head::Global(d) = &term.head else {
        return term.copy(alloc);
    };
    let Some(it) = program.defs.as_slice().get(d.number as usize) else {
        return term.copy(alloc);
    };
    let body = it.body.copy(alloc)?;
    with_args(alloc, body, &term.args)
}

/// The origin with its head's definition in place of the definition's name, below its leading lambdas.
pub(crate) fn first_body(alloc: Global, program: &Program, origin: &Term) -> Result<Term, NoMemory>
    ensures { IfOk result (λ e. e ≡ first_body program.now origin.now) }
{
    let Head::Lam(ty, body) = &origin.head else {
        return head_with_definition(alloc, program, origin);
    };
    if !origin.args.is_empty() {
        return head_with_definition(alloc, program, origin);
    }
    let inner = first_body(alloc, program, body)?;
    Term::lam(alloc, ty.copy(alloc)?, inner)
}
