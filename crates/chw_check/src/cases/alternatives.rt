//! What the alternatives of a case leave out.
ghost use Rattle.std.specs.Prelude.{IfOk, IsTrue, ◌↔◌, MatchOption};
ghost use Rattle.chw_terms.specs.TermView.{alts_of};
ghost use Rattle.chw_typing.specs.Alternatives.{HasDefault};
ghost use Rattle.chw_check.specs.LeavesOut.{LeavesOut, LeavesNothing};

use crate::cases::lacks::{Lacks, Sought};
use crate::cases::missing::first_missing;
use chw_base::NoMemory;
use chw_terms::{Alt, Pattern};
use con_places::Constructors;
use std::alloc::Global;

// Whether an alternative is the default.
fn has_default(alts: &[Alt]) -> bool
    ensures { IsTrue result ↔ HasDefault (alts_of alts.now) }
{
    for alternative in alts {
        if let Pattern::Default = &alternative.pattern {
            return true;
        }
    }
    false
}

/// What is sought and a case with these alternatives leaves out: a constructor where the first alternative is for one, the default where
/// it is for a literal. A case that has a default leaves nothing out, nor does one with no alternatives.
pub(crate) fn left_out(
    alloc: Global,
    constructors: &Constructors<'_>,
    sought: Sought,
    alts: &[Alt],
) -> Result<Option<Lacks>, NoMemory>
    ensures { IfOk result (λ r. MatchOption r (LeavesNothing constructors.now sought (alts_of alts.now))
        (λ l. LeavesOut constructors.now sought (alts_of alts.now) l)) }
{
    if has_default(alts) {
        return Ok(None);
    }
    let Some(first) = alts.first() else {
        return Ok(None);
    };
    match (sought, &first.pattern) {
        (Sought::Constructors, Pattern::OfCon(at, _)) => {
            match first_missing(alloc, constructors, *at, alts)? {
                Some(missing) => Ok(Some(Lacks::Constructor(missing))),
                None => Ok(None),
            }
        }
        (Sought::Defaults, Pattern::OfLit(_, _)) => Ok(Some(Lacks::Default)),
        _ => Ok(None),
    }
}
