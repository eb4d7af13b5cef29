//! Many steps in one letrec, each the first one at the letrec or below it: the letrec is taken apart, its right sides are rewritten one
//! by one, letrecs in them join it, and it is put together. A step costs the size of a right side, not that of the letrec.
#![tactic(auto)]

mod keeping;
mod lets;
mod quiet;
mod reaching;
mod resting;
mod run;
mod rush;
mod scope;
mod trace;
mod trial;

pub use run::run_sides;
