//! Kinds and types of descriptions: which types have kinds, and which are the same. Contracts see a type as a plain tree, and all later
//! promises about types are made over these trees.
#![tactic(auto)]

pub mod arguments;
pub mod declarations;
mod forms;
pub mod kind;
pub mod kinding;
pub mod laws;
pub mod moves;
mod polynomial;
mod room;
pub mod sameness;
mod scope;
pub mod ty;

pub use arguments::{put_arguments, put_arguments_within};
pub use declarations::{ConDecl, Data};
pub use forms::sort_of;
pub use kind::{Kind, Scalar};
pub use kinding::{KindFault, kind_of};
pub use moves::{put_type, shift_type};
pub use sameness::same;
pub use ty::{Ty, TyNode};
