//! The grammar of descriptions: their trees, which words make which tree, what literals and numerals say, and the canonical text of a
//! tree.
#![tactic(auto)]

pub mod laws;
pub mod literal;
pub mod program;
pub mod stand;
pub mod term_tree;
pub mod terminal;
pub mod type_tree;
pub mod word;

pub use literal::{Letter, Literal, read_literal, read_numeral};
pub use program::{Constructor, Declaration, Parameter, Top, Tree};
pub use stand::Stand;
pub use term_tree::{Alternative, Argument, Binding, Pattern, TermNode, TermTree};
pub use terminal::Terminal;
pub use type_tree::{KindTree, TypeNode, TypeTree};
pub use word::Word;
