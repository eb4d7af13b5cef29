//! Statements, as slices of the text.
ghost use Rattle.std.specs.Prelude.{◌≡◌};
ghost use Rattle.blif_text.specs.BlifText.{given_by, inputs_of, outputs_of, read_by};
ghost use Rattle.blif_read.specs.Shown.{statement_of};
ghost use Rattle.stimulus.specs.Texts.{texts};

use std::slice;

/// What a line says.
#[derive(Drop)]
pub enum Statement<'a> {
    Model,
    Inputs(Vec<&'a [u8]>),
    Outputs(Vec<&'a [u8]>),
    /// The names that a table reads, and the one that it drives.
    Table {
        reads: Vec<&'a [u8]>,
        drives: &'a [u8],
    },
    /// The marks of a row.
    Row(&'a [u8]),
    Latch {
        takes: &'a [u8],
        drives: &'a [u8],
        clock: &'a [u8],
        initial: bool,
    },
    End,
}

/// A statement, and the number of its line.
#[derive(Drop)]
pub struct Said<'a> {
    pub number: u32,
    pub says: Statement<'a>,
}

/// What it names as inputs.
pub fn inputs_of<'s, 'a>(says: &'s Statement<'a>) -> &'s [&'a [u8]]
    ensures { texts result.now ≡ inputs_of (statement_of says.now) }
{
    match says {
        Statement::Inputs(names) => names.as_slice(),
        Statement::Model
        | Statement::Outputs(_)
        | Statement::Table { .. }
        | Statement::Row(_)
        | Statement::Latch { .. }
        | Statement::End => &[],
    }
}

/// What it names as outputs.
pub fn outputs_of<'s, 'a>(says: &'s Statement<'a>) -> &'s [&'a [u8]]
    ensures { texts result.now ≡ outputs_of (statement_of says.now) }
{
    match says {
        Statement::Outputs(names) => names.as_slice(),
        Statement::Model
        | Statement::Inputs(_)
        | Statement::Table { .. }
        | Statement::Row(_)
        | Statement::Latch { .. }
        | Statement::End => &[],
    }
}

/// The inputs, and the name that a table or a latch drives.
pub fn given_by<'s, 'a>(says: &'s Statement<'a>) -> &'s [&'a [u8]]
    ensures { texts result.now ≡ given_by (statement_of says.now) }
{
    match says {
        Statement::Inputs(names) => names.as_slice(),
        Statement::Table { drives, .. } => slice::from_ref(drives),
        Statement::Latch { drives, .. } => slice::from_ref(drives),
        Statement::Model | Statement::Outputs(_) | Statement::Row(_) | Statement::End => &[],
    }
}

/// The outputs, and what a table or a latch reads.
pub fn read_by<'s, 'a>(says: &'s Statement<'a>) -> &'s [&'a [u8]]
    ensures { texts result.now ≡ read_by (statement_of says.now) }
{
    match says {
        Statement::Outputs(names) => names.as_slice(),
        Statement::Table { reads, .. } => reads.as_slice(),
        Statement::Latch { takes, .. } => slice::from_ref(takes),
        Statement::Model | Statement::Inputs(_) | Statement::Row(_) | Statement::End => &[],
    }
}
