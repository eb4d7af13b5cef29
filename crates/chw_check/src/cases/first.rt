//! The first case of a program that leaves something out.
ghost use Rattle.std.specs.Prelude.{◌≡◌, IfOk, MatchOption};
ghost use Rattle.chw_check.specs.Incomplete.{AllKeep, IsFirstIncomplete, IsFirstOf, Keep};

use crate::cases::lacks::{Incomplete, Sought};
use crate::cases::walk::first_in;
use chw_base::{DefId, NoMemory, narrow};
use chw_terms::Program;
use con_places::Constructors;
use std::alloc::Global;

/// The first definition whose body has a case that leaves something out, and what its first such case leaves out. A constructor is looked
/// for in the whole program before a default. `None` comes exactly where no case of the program leaves anything out.
///
/// The program need not be typed. What a case without a default looks at is told by its first alternative: where that is for a constructor
/// of the program, the case leaves out the first constructor of the data type that has no alternative, if there is one, and where it is for
/// a literal, the default. In a typed program the cases that leave something out are those that are not complete. Time is linear in the
/// bodies.
///
/// Where a definition's or a constructor's number would pass 32 bits, the answer is want of memory.
pub(crate) fn first_incomplete(
    alloc: Global,
    program: &Program,
    constructors: &Constructors<'_>,
) -> Result<Option<Incomplete>, NoMemory>
    requires table { constructors.now ≡ program.now.datas }
    ensures { IfOk result (λ first. MatchOption first (AllKeep program.now) (λ i. IsFirstIncomplete program.now i)) }
{
    if let Some(found) = first_of(alloc, program, constructors, Sought::Constructors)? {
        return Ok(Some(found));
    }
    first_of(alloc, program, constructors, Sought::Defaults)
}

// The first definition whose body has a case that leaves out what is sought, and what its first such case leaves out.
fn first_of(
    alloc: Global,
    program: &Program,
    constructors: &Constructors<'_>,
    sought: Sought,
) -> Result<Option<Incomplete>, NoMemory>
    requires table { constructors.now ≡ program.now.datas }
    ensures { IfOk result (λ first. MatchOption first (Keep program.now sought) (λ i. IsFirstOf program.now sought i)) }
{
    for (number, it) in program.defs.as_slice().iter().enumerate() {
        if let Some(lacks) = first_in(alloc, constructors, sought, &it.body)? {
            let number = narrow(number)?;
            return Ok(Some(Incomplete {
                def: DefId { number },
                lacks,
            }));
        }
    }
    Ok(None)
}
