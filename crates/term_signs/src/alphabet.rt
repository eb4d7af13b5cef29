//! The signs in which terms are written.

use chw_prims::Prim;
use chw_types::{Kind, Scalar};

/// A sign.
#[derive(Clone, Copy, PartialEq, Eq, Hash)]
pub enum Sign {
    Of(Form),
    Number(u32),
    OfKind(Kind),
    OfSort(Scalar),
    OfPrim(Prim),
    Bit(bool),
}

/// A form of types, of terms, of what they are made of, or the end of a list.
#[derive(Clone, Copy, PartialEq, Eq, Hash)]
pub enum Form {
    TyVar,
    Numeral,
    Sum,
    Product,
    Domain,
    Word,
    Vector,
    Data,
    Fun,
    Signal,
    ForAll,
    OneType,
    NoTypes,
    Var,
    Global,
    Made,
    Lam,
    App,
    TyLam,
    TyApp,
    LetRec,
    Con,
    Primitive,
    Literal,
    Elements,
    Case,
    OneTerm,
    NoTerms,
    OneBinding,
    NoBindings,
    OneAlt,
    NoAlts,
    ConPattern,
    LitPattern,
    DefaultPattern,
    NoBits,
}
