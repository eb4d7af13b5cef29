//! Whole programs.
use crate::term::Term;
use chw_base::{DefId, DomId, Name, Seq};
use chw_types::{Data, Ty};

/// A definition: its name, its declared type, and its body, in which no variable is in scope.
#[derive(Drop)]
pub struct Def {
    pub name: Name,
    pub ty: Ty,
    pub body: Term,
}

/// What of a program becomes the module: a definition, and names for its inputs and outputs.
#[derive(Drop)]
pub struct Top {
    pub def: DefId,
    pub inputs: Seq<Name>,
    pub outputs: Seq<Name>,
}

/// A program: its clock domains, data types and definitions, each in order of declaration, and its top.
#[derive(Drop)]
pub struct Program {
    pub domains: Seq<Name>,
    /// The domains that have a reset, in the order of `domains`, each once.
    pub resets: Seq<DomId>,
    /// The built-in data types stand first.
    pub datas: Seq<Data>,
    pub defs: Seq<Def>,
    pub top: Top,
}
