//! Terms of the core language and whole programs, by typed indices: raising variables and putting terms and types for them, where
//! variables occur, how deep terms nest, and the laws of these. Contracts see a term as a plain tree, and all later promises about terms
//! are made over these trees.
#![tactic(auto)]

pub mod depths;
pub mod gaps;
pub mod laws;
mod moves;
pub mod numerals;
pub mod occurrence;
pub mod program;
pub mod putting;
mod renumbering;
pub mod rule;
pub mod scene;
pub mod shifting;
pub mod term;
pub mod types_put;
mod walk;

pub use chw_types::Scalar;
pub use depths::depth;
pub use gaps::GapBuffer;
pub use numerals::{evaluate, numeral};
pub use occurrence::occurs;
pub use program::{Def, Program, Top};
pub use putting::{put, put_here};
pub use rule::Rule;
pub use scene::{Made, Mode, Place, Scene, Sort};
pub use shifting::{exchange, lower, shift, shift_types};
pub use term::{Alt, Arg, Binding, Head, Pattern, Term};
pub use types_put::put_type_in;
