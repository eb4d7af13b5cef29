//! The tree of a whole description.
use crate::term_tree::TermTree;
use crate::type_tree::{KindTree, TypeTree};
use crate::word::Word;
use chw_base::Seq;

/// A description: its declarations in their order, and its top.
#[derive(Drop)]
pub struct Tree {
    pub declarations: Seq<Declaration>,
    pub top: Top,
}

/// A declaration.
#[derive(Drop)]
pub enum Declaration {
    /// `domain D;` or `domain D reset;`: its name, and whether it has a reset.
    Domain(Word, bool),
    /// `data T (a : Val) = A a | B;`: the name, the parameters, and one constructor or more.
    Data(Word, Seq<Parameter>, Seq<Constructor>),
    /// `def f : t = e;`
    Def(Word, TypeTree, TermTree),
}

/// `(a : Val)` in a data type.
#[derive(Drop)]
pub struct Parameter {
    pub name: Word,
    pub kind: KindTree,
}

/// A constructor and the types of its fields.
#[derive(Drop)]
pub struct Constructor {
    pub name: Word,
    pub fields: Seq<TypeTree>,
}

/// `top f (a, b) (o);`: the definition, the names of the inputs and those of the outputs.
#[derive(Drop)]
pub struct Top {
    pub definition: Word,
    pub inputs: Seq<Word>,
    pub outputs: Seq<Word>,
}
