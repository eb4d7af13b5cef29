//! Where steps are made.
use chw_base::MadeId;
use chw_terms::Rule;

/// Where a step is made, and by which rule.
#[derive(Drop)]
pub struct StepAt {
    pub made: MadeId,
    pub path: Vec<u32>,
    pub rule: Rule,
}
