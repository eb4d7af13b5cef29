//! The rule on the lengths of rows.
ghost use Rattle.std.specs.Prelude.{◌≡◌, ◌↔◌, [], IsTrue, IfSome, IfNone};
ghost use Rattle.blif_text.specs.BlifText.{EachIs, HasLength, width_with};
ghost use Rattle.blif_text.specs.Faults.{IsFirstWithout};
ghost use Rattle.blif_read.specs.Naming.{HasWidth};
ghost use Rattle.blif_read.specs.Shown.{all_said, statement_of};

use crate::statement::{Said, Statement};

/// Whether a row has so many marks.
fn has_width(says: &Statement, width: usize) -> bool
    ensures { IsTrue result ↔ HasWidth width (statement_of says.now) }
{
    match says {
        Statement::Row(marks) => marks.len() == width,
        Statement::Model
        | Statement::Inputs(_)
        | Statement::Outputs(_)
        | Statement::Table { .. }
        | Statement::Latch { .. }
        | Statement::End => true,
    }
}

/// How many names a table reads, or the number for another statement.
fn width_with(width: usize, says: &Statement) -> usize
    ensures { result ≡ width_with width (statement_of says.now) }
{
    match says {
        Statement::Table { reads, .. } => reads.len(),
        Statement::Model
        | Statement::Inputs(_)
        | Statement::Outputs(_)
        | Statement::Row(_)
        | Statement::Latch { .. }
        | Statement::End => width,
    }
}

/// The number of the line of the first row that hasn't a mark for each name that its table reads.
pub fn length_fault(all: &[Said]) -> Option<u32>
    ensures some { IfSome result (IsFirstWithout HasLength (all_said all.now)) }
    ensures none { IfNone result (EachIs HasLength [] (all_said all.now)) }
{
    let mut width = 0;
    for it in all {
        if !has_width(&it.says, width) {
            return Some(it.number);
        }
        width = width_with(width, &it.says);
    }
    None
}
