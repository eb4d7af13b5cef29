//! What holds between the alternatives of a case.
ghost use Rattle.std.specs.Prelude.{◌≡◌, IfOk, IsTrue, ◌↔◌, MatchOption};
ghost use Rattle.chw_terms.specs.TermView.{alts_of};
ghost use Rattle.chw_typing.specs.Alternatives.{NoneHidden};
ghost use Rattle.chw_terms.specs.declared.term.Pattern.TheVariants.{Default};
ghost use Rattle.term_types.specs.Cases.{IsJoined};
ghost use Rattle.term_types.specs.Keying.{IsFor};

use chw_base::NoMemory;
use chw_terms::{Alt, Pattern};
use chw_types::{Scalar, same};
use indexmap::IndexSet;
use seen_types::found::Found;
use std::alloc::Global;
use term_spines::kinding::has_functions;

/// What the alternatives so far give and what the next one gives, joined: the type of the first one, where the others have it too and its
/// kind goes with that of what is looked at.
pub(crate) fn joined<'t>(
    alloc: Global,
    on: &Found,
    given: Option<Found<'t>>,
    next: Found<'t>,
) -> Result<Option<Found<'t>>, NoMemory>
    ensures { IfOk result (IsJoined on.now given.entry next.entry) }
{
    match given {
        Some(first) => {
            if same(alloc, first.ty.ty(), next.ty.ty())? {
                return Ok(Some(first));
            }
            Ok(None)
        }
        None => {
            if has_functions(on.kind, next.kind) {
                return Ok(Some(next));
            }
            Ok(None)
        }
    }
}

/// What no later alternative may be for.
#[derive(Clone, Copy, PartialEq, Eq, Hash)]
enum Key<'a> {
    Constructor(u32),
    Literal(Scalar, &'a [bool]),
}

// What a pattern is for, unless it is a default.
fn key_of(pattern: &Pattern) -> Option<Key<'_>>
    ensures { MatchOption result (pattern.now ≡ Default) (λ key. IsFor key pattern.now) }
{
    match pattern {
        Pattern::OfCon(at, _) => Some(Key::Constructor(at.number)),
        Pattern::OfLit(sort, bits) => Some(Key::Literal(*sort, bits.as_slice())),
        Pattern::Default => None,
    }
}

/// Whether no alternative is hidden by an earlier one: no two are for one constructor or for one literal, and nothing stands after a default.
pub(crate) fn none_hidden(alloc: Global, alts: &[Alt]) -> Result<bool, NoMemory>
    ensures { IfOk result (λ r. IsTrue r ↔ NoneHidden (alts_of alts.now)) }
{
    let mut seen = IndexSet::new(alloc);
    let mut has_default = false;
    for alt in alts {
        if has_default {
            return Ok(false);
        }
        let Some(key) = key_of(&alt.pattern) else {
            has_default = true;
            continue;
        };
        if !seen.insert(key)? {
            return Ok(false);
        }
    }
    Ok(true)
}
