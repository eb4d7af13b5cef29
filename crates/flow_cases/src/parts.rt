//! Small parts of terms that the rules look for or write.
ghost use Rattle.std.specs.Prelude.{◌≡◌, IfOk, MatchOption};
ghost use Rattle.chw_terms.specs.TermView.{tree_of, group_of};
ghost use Rattle.chw_terms.specs.Unrolled.{named};
ghost use Rattle.rewriting.specs.Shapes.{or_body};
ghost use Rattle.flow_cases.specs.Heads.{IsApplied};
ghost use Rattle.flow_cases.specs.Moves.{fields_put};

use chw_base::NoMemory;
use chw_terms::{Binding, Head, Term};
use chw_types::{Ty, put_arguments};
use std::alloc::Global;

/// The head of a term that has no arguments.
pub(crate) fn bare_head(term: &Term) -> Option<&Head>
    ensures { MatchOption result (IsApplied term.now) (λ h. tree_of h.now ≡ term.now) }
{
    if term.args.is_empty() {
        return Some(&term.head);
    }
    None
}

/// The types of fields at the arguments of their data type.
///
/// Where one would be too large, the answer is want of memory.
pub(crate) fn fields_at(alloc: Global, fields: &[Ty], args: &[Ty]) -> Result<Vec<Ty>, NoMemory>
    ensures { IfOk result (λ ts. ts.items ≡ fields_put fields.now args.now) }
{
    let mut types = Vec::new(alloc);
    for field in fields {
        types.push(put_arguments(alloc, field, args)?)?;
    }
    Ok(types)
}

/// Names of these types for these terms.
pub(crate) fn named(
    alloc: Global,
    types: Vec<Ty>,
    sides: Vec<Term>,
) -> Result<Vec<Binding>, NoMemory>
    ensures { IfOk result (λ group. group_of group.items ≡ named types.items sides.items) }
{
    let both = types.into_iter().zip(sides);
    let group = both.map(|(ty, body)| Binding { ty, body }).collect(alloc)?;
    Ok(group)
}

/// A let of these names around a term, and the term alone where there are none.
pub(crate) fn or_body(alloc: Global, group: Vec<Binding>, body: Term) -> Result<Term, NoMemory>
    ensures { IfOk result (λ e. e ≡ or_body (group_of group.items) body) }
{
    if group.is_empty() {
        return Ok(body);
    }
    Term::letrec(alloc, group, body)
}
