//! Where a search begins below a place.
ghost use Rattle.std.specs.Prelude.{[], ◌∷◌, MatchOption};
ghost use Rattle.active_parts.specs.Parts.{numbers_of};
ghost use Rattle.step_search.specs.Begins.{IsPassed, BeginsAt};

use active_parts::PartPath;

/// Where the search begins below the child of this number, where it begins from this path here.
pub(crate) fn begin_at_child(from: &[u32], number: u32) -> Option<&[u32]>
    ensures { MatchOption result (IsPassed (number ∷ []) from.now) (λ left. BeginsAt (number ∷ []) from.now left.now) }
{
    let Some((first, rest)) = from.split_first() else {
        return Some(from);
    };
    if number == *first {
        return Some(rest);
    }
    if number < *first {
        return None;
    }
    Some(&from[..0])
}

/// The same below the part at a path.
pub(crate) fn begin_at(from: &[u32], path: PartPath) -> Option<&[u32]>
    ensures { MatchOption result (IsPassed (numbers_of path) from.now) (λ left. BeginsAt (numbers_of path) from.now left.now) }
{
    let mut left = from;
    for _ in 0..path.zeros {
        if left.is_empty() {
            return Some(left);
        }
        let Some(next) = begin_at_child(left, 0) else {
            return None;
        };
        left = next;
    }
    begin_at_child(left, path.last)
}
