//! Steps that were found, with the numbers of the paths to them.
ghost use Rattle.std.specs.Prelude.{◌≡◌, ◌++◌, [], ◌∷◌, reverse, IfOk};
ghost use Rattle.step_search.specs.First.{GoesOn};
ghost use Rattle.active_parts.specs.Parts.{numbers_of};

use active_parts::PartPath;
use chw_base::NoMemory;
use trials::Trial;

/// A step below a place, how it changes the term there, and the made definition that it adds, if it adds one.
#[derive(Drop)]
pub struct Trail {
    /// The numbers of the path, the last one first.
    pub back: Vec<u32>,
    pub trial: Trial,
}

/// The step with the number of the child below which it was found.
pub(crate) fn behind_child(found: Option<Trail>, number: u32) -> Result<Option<Trail>, NoMemory>
    ensures { IfOk result (GoesOn (number ∷ []) found) }
{
    match found {
        Some(trail) => {
            let Trail { mut back, trial } = trail;
            back.push(number)?;
            Ok(Some(Trail { back, trial }))
        }
        None => Ok(None),
    }
}

/// The step with the path to the part below which it was found.
pub(crate) fn behind(found: Option<Trail>, path: PartPath) -> Result<Option<Trail>, NoMemory>
    ensures { IfOk result (GoesOn (numbers_of path) found) }
{
    match found {
        Some(trail) => {
            let Trail { back, trial } = trail;
            let back = with_path(back, path)?;
            Ok(Some(Trail { back, trial }))
        }
        None => Ok(None),
    }
}

// The numbers with those of a path behind them, the last one first.
fn with_path(back: Vec<u32>, path: PartPath) -> Result<Vec<u32>, NoMemory>
    ensures { IfOk result (λ r. reverse r.items ≡ numbers_of path ++ reverse back.items) }
{
    let mut numbers = back;
    numbers.push(path.last)?;
    for _ in 0..path.zeros {
        numbers.push(0)?;
    }
    Ok(numbers)
}
