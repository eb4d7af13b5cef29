//! How a rule changes a term.
use chw_terms::{Made, Rule, Term};

/// How a rule changes a term: another term is put in its place, or the first letrec in a letrec
/// joins the one around it, as the rule that joins letrecs does.
#[derive(Drop)]
pub enum Change {
    Put(Term),
    Join,
}

/// The first rule with an instance on a term, how it changes the term, and the made definition that
/// it adds, if it adds one.
#[derive(Drop)]
pub struct Trial {
    pub rule: Rule,
    pub change: Change,
    pub definition: Option<Made>,
}
