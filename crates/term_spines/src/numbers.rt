//! Types by their numbers in a table.
ghost use Rattle.std.specs.Prelude.{◌≡◌, ◌↔◌, List, ℕ, Some, IfOk, IsTrue, reverse};
ghost use Rattle.chw_types.specs.Arguments.{given};
ghost use Rattle.chw_types.specs.SameTypes.{SameTypes};
ghost use Rattle.chw_types.specs.TypeMoves.{sub};
ghost use Rattle.chw_types.specs.TypeTree.{TypeTree, fun};
ghost use Rattle.seen_types.specs.NumberOf.{IsNumberOf};

use chw_base::NoMemory;
use chw_types::{Ty, same};
use std::alloc::Global;
use type_numbers::TypeTable;

/// The numbers of the parameter's type and the result's, of a function type of this number.
pub(crate) fn part_numbers(types: &TypeTable, of: Option<u32>) -> (Option<u32>, Option<u32>)
    ensures { (a b : TypeTree) → IsNumberOf types.now of (fun a b)
        → IsNumberOf types.now result.0 a × IsNumberOf types.now result.1 b }
{
    let Some(number) = of else {
        return (None, None);
    };
    match types.function_parts(number) {
        Some((from, to)) => (Some(from), Some(to)),
        None => (None, None),
    }
}

/// The number of a type with these put for its variables, where they are none.
pub(crate) fn filled_number(of: Option<u32>, waiting: &[Ty]) -> Option<u32>
    ensures { (ts : List TypeTree) (t : TypeTree) → IsNumberOf ts of t
        → IsNumberOf ts result (sub t (given (reverse waiting.now))) }
{
    if waiting.is_empty() { of } else { None }
}

// Whether these are one number.
fn is_one(a: Option<u32>, b: Option<u32>) -> bool
    ensures { IsTrue result → (n : ℕ) × (a ≡ Some n) × (b ≡ Some n) }
{
    match (a, b) {
        (Some(a), Some(b)) => a == b,
        _ => false,
    }
}

/// Whether two types are the same, of which these are the numbers in one table, where they have any.
pub(crate) fn same_numbered(
    alloc: Global,
    a: &Ty,
    number_of_a: Option<u32>,
    b: &Ty,
    number_of_b: Option<u32>,
) -> Result<bool, NoMemory>
    requires { (ts : List TypeTree) × IsNumberOf ts number_of_a a.now × IsNumberOf ts number_of_b b.now }
    ensures { IfOk result (λ r. IsTrue r ↔ SameTypes a.now b.now) }
{
    if is_one(number_of_a, number_of_b) {
        return Ok(true);
    }
    Ok(same(alloc, a, b)?)
}
