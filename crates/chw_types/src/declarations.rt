//! Declared data types.
use crate::kind::Kind;
use crate::ty::Ty;
use chw_base::{Name, Seq};

/// A constructor: its name, and the types of its fields, in which the last parameter of the data type is the type variable 0.
#[derive(Drop)]
pub struct ConDecl {
    pub name: Name,
    pub fields: Seq<Ty>,
}

/// A data type: its name, the kinds of its parameters, its own kind, and its constructors in order of declaration.
#[derive(Drop)]
pub struct Data {
    pub name: Name,
    pub params: Seq<Kind>,
    pub kind: Kind,
    pub cons: Seq<ConDecl>,
}
