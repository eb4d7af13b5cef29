//! The trees of terms.
ghost use Rattle.std.specs.Prelude.{◌≡◌, IfOk};
ghost use Rattle.chw_grammar.specs.TermTree.{term_lambda, term_type_lambda, term_letrec, term_case, term_apply, term_name, term_constructor, term_literal, term_vec};
ghost use Rattle.chw_grammar.specs.TermView.{terms_of, arguments_of, bindings_of, alternatives_of};

use crate::type_tree::{KindTree, TypeTree};
use crate::word::Word;
use chw_base::{NoMemory, Seq};
use std::alloc::Global;
use std::marker::Model;

/// A term as it is written, which contracts see as a plain tree.
#[cycle(term_tree)]
#[derive(Drop)]
pub struct TermTree {
    pub node: TermNode,
}

/// What a term is at its root.
#[cycle(term_tree)]
#[derive(Drop)]
pub enum TermNode {
    /// `\(x : t) . body`
    Lambda(Word, TypeTree, Box<TermTree>),
    /// `/\(a : Val) . body`
    TypeLambda(Word, KindTree, Box<TermTree>),
    /// `letrec { x : t = e; } in body`
    LetRec(Vec<Binding>, Box<TermTree>),
    /// `case e of { .. }`
    Case(Box<TermTree>, Vec<Alternative>),
    /// A head with one argument or more.
    Apply(Box<TermTree>, Vec<Argument>),
    /// A lower name.
    Name(Word),
    /// An upper name.
    Constructor(Word),
    /// A literal.
    Literal(Word),
    /// `vec @t [a, b]`
    VecLit(TypeTree, Vec<TermTree>),
}

/// `x : t = e;` in a letrec.
#[cycle(term_tree)]
#[derive(Drop)]
pub struct Binding {
    pub name: Word,
    pub ty: TypeTree,
    pub term: TermTree,
}

/// `pattern -> e;` in a case.
#[cycle(term_tree)]
#[derive(Drop)]
pub struct Alternative {
    pub pattern: Pattern,
    pub term: TermTree,
}

/// An argument of an application: a term, or `@` and a type.
#[cycle(term_tree)]
#[derive(Drop)]
pub enum Argument {
    OfTerm(TermTree),
    OfType(TypeTree),
}

/// What an alternative is for.
#[derive(Drop)]
pub enum Pattern {
    /// A constructor and the names of its fields.
    Constructor(Word, Seq<Word>),
    /// A literal.
    Literal(Word),
    /// `_`
    Default,
}

impl Model for TermTree {
    ghost use Rattle.chw_grammar.specs.TermTree.{Tm};
    ghost use Rattle.chw_grammar.specs.TermCode.{coded_term};

    ghost Value = { Tm };

    ghost coded = { coded_term };

    ghost use Rattle.chw_grammar.specs.TermView.{term_of};
    ghost use Rattle.chw_grammar.specs.TermSize.{term_size};

    ghost view = { λ t. term_of t.node };

    ghost size = { term_size };

    ghost use Rattle.chw_grammar.specs.TermFalls.{term_falls};

    ghost size_decreases = { λ a h. term_falls a.node };
}

impl TermTree {
    /// `\(name : ty) . body`
    pub fn lambda(
        alloc: Global,
        name: Word,
        ty: TypeTree,
        body: TermTree,
    ) -> Result<TermTree, NoMemory>
        ensures { IfOk result (λ t. t ≡ term_lambda name ty body) }
    {
        Ok(TermTree {
            node: TermNode::Lambda(name, ty, Box::new(alloc, body)?),
        })
    }

    /// `/\(name : kind) . body`
    pub fn type_lambda(
        alloc: Global,
        name: Word,
        kind: KindTree,
        body: TermTree,
    ) -> Result<TermTree, NoMemory>
        ensures { IfOk result (λ t. t ≡ term_type_lambda name kind body) }
    {
        Ok(TermTree {
            node: TermNode::TypeLambda(name, kind, Box::new(alloc, body)?),
        })
    }

    /// `letrec { bindings } in body`
    pub fn letrec(
        alloc: Global,
        bindings: Vec<Binding>,
        body: TermTree,
    ) -> Result<TermTree, NoMemory>
        ensures { IfOk result (λ t. t ≡ term_letrec (bindings_of bindings.items) body) }
    {
        Ok(TermTree {
            node: TermNode::LetRec(bindings, Box::new(alloc, body)?),
        })
    }

    /// `case scrutinee of { alternatives }`
    pub fn case(
        alloc: Global,
        scrutinee: TermTree,
        alternatives: Vec<Alternative>,
    ) -> Result<TermTree, NoMemory>
        ensures { IfOk result (λ t. t ≡ term_case scrutinee (alternatives_of alternatives.items)) }
    {
        Ok(TermTree {
            node: TermNode::Case(Box::new(alloc, scrutinee)?, alternatives),
        })
    }

    /// A head with its arguments.
    pub fn apply(
        alloc: Global,
        head: TermTree,
        arguments: Vec<Argument>,
    ) -> Result<TermTree, NoMemory>
        ensures { IfOk result (λ t. t ≡ term_apply head (arguments_of arguments.items)) }
    {
        Ok(TermTree {
            node: TermNode::Apply(Box::new(alloc, head)?, arguments),
        })
    }

    /// A lower name.
    pub fn name(name: Word) -> TermTree
        ensures { result ≡ term_name name }
    {
        TermTree {
            node: TermNode::Name(name),
        }
    }

    /// An upper name.
    pub fn constructor(name: Word) -> TermTree
        ensures { result ≡ term_constructor name }
    {
        TermTree {
            node: TermNode::Constructor(name),
        }
    }

    /// A literal.
    pub fn literal(literal: Word) -> TermTree
        ensures { result ≡ term_literal literal }
    {
        TermTree {
            node: TermNode::Literal(literal),
        }
    }

    /// `vec @ty [elements]`
    pub fn vec_lit(ty: TypeTree, elements: Vec<TermTree>) -> TermTree
        ensures { result ≡ term_vec ty (terms_of elements.items) }
    {
        TermTree {
            node: TermNode::VecLit(ty, elements),
        }
    }
}
