//! The trees of kinds and types.
ghost use Rattle.std.specs.Prelude.{◌≡◌, IfOk};
ghost use Rattle.chw_grammar.specs.TypeTree.{type_forall, type_arrow, type_sum, type_product, type_named, type_variable, type_numeral};
ghost use Rattle.chw_grammar.specs.TypeView.{types_of};

use crate::word::Word;
use chw_base::NoMemory;
use std::alloc::Global;
use std::marker::Model;

/// A kind as it is written.
#[derive(Clone, Copy, Debug, PartialEq, Eq)]
pub enum KindTree {
    Nat,
    Dom,
    Val,
    Cir,
}

/// A type as it is written, which contracts see as a plain tree.
#[cycle(type_tree)]
#[derive(Drop)]
pub struct TypeTree {
    pub node: TypeNode,
}

/// What a type is at its root.
#[cycle(type_tree)]
#[derive(Drop)]
pub enum TypeNode {
    /// `forall (a : Val) . t`
    Forall(Word, KindTree, Box<TypeTree>),
    /// `a -> b`
    Arrow(Box<TypeTree>, Box<TypeTree>),
    /// `a + b + c`: two parts or more.
    Sum(Vec<TypeTree>),
    /// `a * b * c`: two parts or more.
    Product(Vec<TypeTree>),
    /// An upper name with its arguments, as `Unsigned 8`, or alone.
    Named(Word, Vec<TypeTree>),
    /// A lower name.
    Variable(Word),
    /// A numeral.
    Numeral(Word),
}

impl Model for TypeTree {
    ghost use Rattle.chw_grammar.specs.TypeTree.{Ty};
    ghost use Rattle.chw_grammar.specs.TypeCode.{coded_type};

    ghost Value = { Ty };

    ghost coded = { coded_type };

    ghost use Rattle.chw_grammar.specs.TypeView.{type_of};
    ghost use Rattle.chw_grammar.specs.TypeSize.{type_size};

    ghost view = { λ t. type_of t.node };

    ghost size = { type_size };

    ghost use Rattle.chw_grammar.specs.TypeFalls.{type_falls};

    ghost size_decreases = { λ a h. type_falls a.node };
}

impl TypeTree {
    /// `forall (variable : kind) . body`
    pub fn forall(
        alloc: Global,
        variable: Word,
        kind: KindTree,
        body: TypeTree,
    ) -> Result<TypeTree, NoMemory>
        ensures { IfOk result (λ t. t ≡ type_forall variable kind body) }
    {
        Ok(TypeTree {
            node: TypeNode::Forall(variable, kind, Box::new(alloc, body)?),
        })
    }

    /// `from -> to`
    pub fn arrow(alloc: Global, from: TypeTree, to: TypeTree) -> Result<TypeTree, NoMemory>
        ensures { IfOk result (λ t. t ≡ type_arrow from to) }
    {
        Ok(TypeTree {
            node: TypeNode::Arrow(Box::new(alloc, from)?, Box::new(alloc, to)?),
        })
    }

    /// The sum of the parts.
    pub fn sum(parts: Vec<TypeTree>) -> TypeTree
        ensures { result ≡ type_sum (types_of parts.items) }
    {
        TypeTree {
            node: TypeNode::Sum(parts),
        }
    }

    /// The product of the parts.
    pub fn product(parts: Vec<TypeTree>) -> TypeTree
        ensures { result ≡ type_product (types_of parts.items) }
    {
        TypeTree {
            node: TypeNode::Product(parts),
        }
    }

    /// An upper name with its arguments.
    pub fn named(name: Word, arguments: Vec<TypeTree>) -> TypeTree
        ensures { result ≡ type_named name (types_of arguments.items) }
    {
        TypeTree {
            node: TypeNode::Named(name, arguments),
        }
    }

    /// A lower name.
    pub fn variable(name: Word) -> TypeTree
        ensures { result ≡ type_variable name }
    {
        TypeTree {
            node: TypeNode::Variable(name),
        }
    }

    /// A numeral.
    pub fn numeral(digits: Word) -> TypeTree
        ensures { result ≡ type_numeral digits }
    {
        TypeTree {
            node: TypeNode::Numeral(digits),
        }
    }
}
