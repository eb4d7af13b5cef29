//! Where statements may stand.
ghost use Rattle.std.specs.Prelude.{◌≡◌, option_map};
ghost use Rattle.blif_text.specs.Statements.{place_behind};
ghost use Rattle.blif_text.specs.Statements.Place.{at_inputs, at_model, at_node, at_outputs};
ghost use Rattle.blif_text.specs.Statements.Place.{at_row};
ghost use Rattle.blif_read.specs.Shown.{place_of, statement_of};

use crate::statement::Statement;

/// What may stand at a place of a text.
#[derive(Clone, Copy)]
pub enum Place {
    AtModel,
    AtInputs,
    AtOutputs,
    /// A table, a latch or the end.
    AtNode,
    /// The same, or a row of the table before.
    AtRow,
    /// Nothing.
    BehindEnd,
}

fn behind_model(says: &Statement) -> Option<Place>
    ensures { option_map place_of result ≡ place_behind at_model (statement_of says.now) }
{
    match says {
        Statement::Model => Some(Place::AtInputs),
        _ => None,
    }
}

fn behind_inputs(says: &Statement) -> Option<Place>
    ensures { option_map place_of result ≡ place_behind at_inputs (statement_of says.now) }
{
    match says {
        Statement::Inputs(_) => Some(Place::AtOutputs),
        _ => None,
    }
}

fn behind_outputs(says: &Statement) -> Option<Place>
    ensures { option_map place_of result ≡ place_behind at_outputs (statement_of says.now) }
{
    match says {
        Statement::Outputs(_) => Some(Place::AtNode),
        _ => None,
    }
}

fn behind_node(says: &Statement) -> Option<Place>
    ensures { option_map place_of result ≡ place_behind at_node (statement_of says.now) }
{
    match says {
        Statement::Table { .. } => Some(Place::AtRow),
        Statement::Latch { .. } => Some(Place::AtNode),
        Statement::End => Some(Place::BehindEnd),
        _ => None,
    }
}

fn behind_row(says: &Statement) -> Option<Place>
    ensures { option_map place_of result ≡ place_behind at_row (statement_of says.now) }
{
    match says {
        Statement::Row(_) => Some(Place::AtRow),
        _ => behind_node(says),
    }
}

/// The place behind a statement, where it may stand at a place.
pub fn place_behind(place: Place, says: &Statement) -> Option<Place>
    ensures { option_map place_of result ≡ place_behind (place_of place) (statement_of says.now) }
{
    match place {
        Place::AtModel => behind_model(says),
        Place::AtInputs => behind_inputs(says),
        Place::AtOutputs => behind_outputs(says),
        Place::AtNode => behind_node(says),
        Place::AtRow => behind_row(says),
        Place::BehindEnd => None,
    }
}
