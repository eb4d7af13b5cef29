//! The parts of a tree that the parser has read.
use crate::stack::Stack;
use chw_grammar::{
    Alternative, Argument, Binding, Constructor, Declaration, KindTree, Parameter, Pattern,
    TermTree, Tree, TypeTree, Word,
};

/// A part of a tree, or a list of parts to which more will come.
#[derive(Drop)]
pub enum Value {
    OneWord(Word),
    Words(Stack<Word>),
    OneKind(KindTree),
    OneType(TypeTree),
    Types(Stack<TypeTree>),
    OneTerm(TermTree),
    Terms(Stack<TermTree>),
    OnePattern(Pattern),
    Bindings(Stack<Binding>),
    Alternatives(Stack<Alternative>),
    Arguments(Stack<Argument>),
    Parameters(Stack<Parameter>),
    Constructors(Stack<Constructor>),
    Declarations(Stack<Declaration>),
    Whole(Tree),
}
