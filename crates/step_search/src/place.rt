//! Where steps are made.
use chw_terms::Made;
use norm_lines::StepAt;
use trials::Change;

/// A step, how it changes the term at its place, and the made definition that it adds, if it adds one.
#[derive(Drop)]
pub struct Found {
    pub at: StepAt,
    pub change: Change,
    pub definition: Option<Made>,
}
