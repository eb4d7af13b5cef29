//! How many parameters and bindings a body has.
ghost use Rattle.std.specs.Prelude.{◌≡◌, ◌++◌, IfOk, IfSome, IfNone, OnOk};
ghost use Rattle.chw_types.specs.TypeTree.{TypeTree};
ghost use Rattle.chw_terms.specs.TermTree.{lam};
ghost use Rattle.rewriting.specs.Shapes.{leading_lambdas};
ghost use Rattle.norm_lines.specs.Lines.{bindings_of, counts_text, under_lambdas};

use crate::pieces::{put, put_number};
use chw_base::NoMemory;
use chw_terms::{Head, Term};

// How many lambdas lead a body, and how many variables the letrec under them binds.
#[derive(Clone, Copy)]
struct Counts {
    params: u32,
    bindings: usize,
}

// The body of a lambda that isn't applied.
fn under_lambda(term: &Term) -> Option<&Term>
    ensures some { IfSome result (λ e. (t : TypeTree) × (term.now ≡ lam t e.now)) }
    ensures none { IfNone result ((leading_lambdas term.now ≡ 0) × (under_lambdas term.now ≡ term.now)) }
{
    let Head::Lam(_, body) = &term.head else {
        return None;
    };
    if term.args.is_empty() {
        Some(body)
    } else {
        None
    }
}

// How many variables a letrec binds that isn't applied. Other terms bind none.
fn bindings_of(term: &Term) -> usize
    ensures { result ≡ bindings_of term.now }
{
    let Head::LetRec(group, _) = &term.head else {
        return 0;
    };
    if term.args.is_empty() { group.len() } else { 0 }
}

// The counts of a body. Where a number would pass 32 bits, the answer is want of memory.
fn counts_of(body: &Term) -> Result<Counts, NoMemory>
    ensures { IfOk result (λ c. (c.params ≡ leading_lambdas body.now) × (c.bindings ≡ bindings_of (under_lambdas body.now))) }
{
    let mut params: u32 = 0;
    let mut inner = body;
    while let Some(under) = under_lambda(inner) {
        params = params.checked_add(1).ok_or(NoMemory)?;
        inner = under;
    }
    Ok(Counts {
        params,
        bindings: bindings_of(inner),
    })
}

// Appends how many parameters a body has, and how many bindings under them.
pub(crate) fn put_counts(out: &mut Vec<u8>, body: &Term) -> Result<(), NoMemory>
    ensures { OnOk result (out.new.items ≡ out.old.items ++ counts_text body.now) }
{
    let counts = counts_of(body)?;
    put(out, b"params ")?;
    put_number(out, counts.params as usize)?;
    put(out, b" bindings ")?;
    put_number(out, counts.bindings)
}
