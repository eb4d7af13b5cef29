//! The constructors that have no alternative.
ghost use Rattle.std.specs.Prelude.{◌≡◌, ℕ, nat_eq, true, IfOk, MatchOption, ◌↔◌};
ghost use Rattle.indexmap.specs.IndexSet.{contains};
ghost use Rattle.chw_terms.specs.TermView.{alts_of};
ghost use Rattle.chw_typing.specs.Alternatives.{IsFor};
ghost use Rattle.chw_check.specs.WithoutAlternative.{IsMissing, NoneMissing};

use chw_base::{ConId, NoMemory, narrow};
use chw_terms::{Alt, Pattern};
use con_places::Constructors;
use indexmap::IndexSet;
use std::alloc::Global;

// The numbers of the constructors that have an alternative.
fn with_alternatives(alloc: Global, alts: &[Alt]) -> Result<IndexSet<u32>, NoMemory>
    ensures { IfOk result (λ cons. (c : ℕ) → contains nat_eq cons c ≡ true ↔ IsFor c (alts_of alts.now)) }
{
    let mut cons = IndexSet::new(alloc);
    for alternative in alts {
        let Pattern::OfCon(at, _) = &alternative.pattern else {
            continue;
        };
        cons.insert(at.number)?;
    }
    Ok(cons)
}

/// The first constructor of the data type that this one is of, in order of declaration, that has no alternative.
///
/// There is none where every constructor has one, nor where the number stands for no constructor. Time is linear in the alternatives: as
/// many constructors at most are passed over.
///
/// Where a constructor's number would pass 32 bits, the answer is want of memory.
pub(crate) fn first_missing(
    alloc: Global,
    constructors: &Constructors<'_>,
    at: ConId,
    alts: &[Alt],
) -> Result<Option<ConId>, NoMemory>
    ensures { IfOk result (λ r. MatchOption r (NoneMissing constructors.now at.number (alts_of alts.now)) (λ d. IsMissing constructors.now at.number (alts_of alts.now) d.number)) }
{
    let Some(con) = constructors.at(at) else {
        return Ok(None);
    };
    let handled = with_alternatives(alloc, alts)?;
    let first = (at.number - con.place) as usize;
    let cons = con.it.cons.as_slice();
    for place in 0..cons.len() {
        let number = narrow(first + place)?;
        if !handled.contains(&number) {
            return Ok(Some(ConId { number }));
        }
    }
    Ok(None)
}
