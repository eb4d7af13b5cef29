//! Parts at which no step is sought: all places at them are earlier, or they are right sides in normal form.
ghost use Rattle.std.specs.Prelude.{◌≤◌, ℕ, List, IfOk, IsTrue};
ghost use Rattle.trials.specs.Trials.{built};
ghost use Rattle.active_parts.specs.Parts.{arguments_of, AreAmongArguments, IsAmong};
ghost use Rattle.step_search.specs.Passed.{IsPassedPart, ArePassedParts};

use crate::paths::begin_at;
use active_parts::path_to;
use chw_base::NoMemory;
use chw_terms::{Head, Term};
use quiet_sides::is_quiet;
use quiet_sides::laws::quiet_sides_have_no_step;

/// Whether the part of this number is a right side of a letrec and quiet.
pub(crate) fn is_quiet_part(at: &Term, number: usize) -> bool
    ensures { IsTrue result → (from : List ℕ) → IsPassedPart built at.now from number }
{
    quiet_sides_have_no_step();
    if !at.args.is_empty() {
        return false;
    }
    let Head::LetRec(bindings, _) = &at.head else {
        return false;
    };
    let Some(binding) = bindings.get(number) else {
        return false;
    };
    is_quiet(&binding.body)
}

// Whether the search passes over the part of this number.
fn is_passed(at: &Term, number: usize, from: &[u32]) -> Result<bool, NoMemory>
    requires { IsAmong (arguments_of at.now) number }
    ensures { IfOk result (λ r. IsTrue r → IsPassedPart built at.now from.now number) }
{
    let path = path_to(at.args.len(), number)?;
    let Some(_) = begin_at(from, path) else {
        return Ok(true);
    };
    Ok(is_quiet_part(at, number))
}

/// The number of the first part over which the search doesn't pass, or how many parts come into question, where there is none.
pub(crate) fn first_sought(at: &Term, count: usize, from: &[u32]) -> Result<usize, NoMemory>
    requires { AreAmongArguments at.now count }
    ensures { IfOk result (ArePassedParts built at.now from.now) }
{
    for number in 0..count {
        let passed = is_passed(at, number, from)?;
        if !passed {
            return Ok(number);
        }
    }
    Ok(count)
}
