//! The newest part, where it is of one sort.
ghost use Rattle.std.specs.Prelude.{◌≡◌, MatchOption, Option, Some, None};
ghost use Rattle.parser_parts.specs.Actions.{first, first_two, first_three, first_four, as_word, as_words, as_kind, as_type, as_types, as_term, as_terms, as_pattern, as_bindings, as_alternatives, as_arguments, as_parameters, as_constructors, as_declarations, as_tree};
ghost use Rattle.parser_parts.specs.declared.value.Value.{Value};

use crate::stack::Stack;
use crate::value::Value;
use chw_grammar::{
    Alternative, Argument, Binding, Constructor, Declaration, KindTree, Parameter, Pattern,
    TermTree, Tree, TypeTree, Word,
};

/// A sort of parts.
pub trait Part {
    /// The part, where the value is one of this sort.
    ghost taken: { Value → Option Self };

    fn take(value: Value) -> Option<Self>
        ensures { result ≡ taken value };
}

/// No part, as the value is one of another sort.
fn none_of<P>(value: Value) -> Option<P>
    ensures { result ≡ None }
{
    drop(value);
    None
}

/// The newest part, where it is of the sort. It leaves in either case.
pub fn pop<P: Part>(values: &mut Stack<Value>) -> Option<P>
    ensures { MatchOption result (first P.taken values.old ≡ None) (λ part. first P.taken values.old ≡ Some (part, values.new)) }
{
    match values.pop() {
        Some(value) => P::take(value),
        None => None,
    }
}

/// The two newest parts, the newest first, where each is of its sort. What does not fit leaves too.
pub fn pop_two<A: Part + Drop, B: Part>(values: &mut Stack<Value>) -> Option<(A, B)>
    ensures { MatchOption result (first_two A.taken B.taken values.old ≡ None) (λ parts. first_two A.taken B.taken values.old ≡ Some (parts.0, parts.1, values.new)) }
{
    let newest = pop::<A>(&mut *values)?;
    let next = pop::<B>(values)?;
    Some((newest, next))
}

/// The same of three parts.
pub fn pop_three<A: Part + Drop, B: Part + Drop, C: Part>(
    values: &mut Stack<Value>,
) -> Option<(A, B, C)>
    ensures { MatchOption result (first_three A.taken B.taken C.taken values.old ≡ None) (λ parts. first_three A.taken B.taken C.taken values.old ≡ Some (parts.0, parts.1, parts.2, values.new)) }
{
    let newest = pop::<A>(&mut *values)?;
    let (second, third) = pop_two::<B, C>(values)?;
    Some((newest, second, third))
}

/// The same of four parts.
pub fn pop_four<A: Part + Drop, B: Part + Drop, C: Part + Drop, D: Part>(
    values: &mut Stack<Value>,
) -> Option<(A, B, C, D)>
    ensures { MatchOption result (first_four A.taken B.taken C.taken D.taken values.old ≡ None) (λ parts. first_four A.taken B.taken C.taken D.taken values.old ≡ Some (parts.0, parts.1, parts.2, parts.3, values.new)) }
{
    let newest = pop::<A>(&mut *values)?;
    let (second, third, fourth) = pop_three::<B, C, D>(values)?;
    Some((newest, second, third, fourth))
}

impl Part for Word {
    ghost taken = { as_word };

    fn take(value: Value) -> Option<Word> {
        match value {
            Value::OneWord(part) => Some(part),
            other => none_of(other),
        }
    }
}

impl Part for Stack<Word> {
    ghost taken = { as_words };

    fn take(value: Value) -> Option<Stack<Word>> {
        match value {
            Value::Words(part) => Some(part),
            other => none_of(other),
        }
    }
}

impl Part for KindTree {
    ghost taken = { as_kind };

    fn take(value: Value) -> Option<KindTree> {
        match value {
            Value::OneKind(part) => Some(part),
            other => none_of(other),
        }
    }
}

impl Part for TypeTree {
    ghost taken = { as_type };

    fn take(value: Value) -> Option<TypeTree> {
        match value {
            Value::OneType(part) => Some(part),
            other => none_of(other),
        }
    }
}

impl Part for Stack<TypeTree> {
    ghost taken = { as_types };

    fn take(value: Value) -> Option<Stack<TypeTree>> {
        match value {
            Value::Types(part) => Some(part),
            other => none_of(other),
        }
    }
}

impl Part for TermTree {
    ghost taken = { as_term };

    fn take(value: Value) -> Option<TermTree> {
        match value {
            Value::OneTerm(part) => Some(part),
            other => none_of(other),
        }
    }
}

impl Part for Stack<TermTree> {
    ghost taken = { as_terms };

    fn take(value: Value) -> Option<Stack<TermTree>> {
        match value {
            Value::Terms(part) => Some(part),
            other => none_of(other),
        }
    }
}

impl Part for Pattern {
    ghost taken = { as_pattern };

    fn take(value: Value) -> Option<Pattern> {
        match value {
            Value::OnePattern(part) => Some(part),
            other => none_of(other),
        }
    }
}

impl Part for Stack<Binding> {
    ghost taken = { as_bindings };

    fn take(value: Value) -> Option<Stack<Binding>> {
        match value {
            Value::Bindings(part) => Some(part),
            other => none_of(other),
        }
    }
}

impl Part for Stack<Alternative> {
    ghost taken = { as_alternatives };

    fn take(value: Value) -> Option<Stack<Alternative>> {
        match value {
            Value::Alternatives(part) => Some(part),
            other => none_of(other),
        }
    }
}

impl Part for Stack<Argument> {
    ghost taken = { as_arguments };

    fn take(value: Value) -> Option<Stack<Argument>> {
        match value {
            Value::Arguments(part) => Some(part),
            other => none_of(other),
        }
    }
}

impl Part for Stack<Parameter> {
    ghost taken = { as_parameters };

    fn take(value: Value) -> Option<Stack<Parameter>> {
        match value {
            Value::Parameters(part) => Some(part),
            other => none_of(other),
        }
    }
}

impl Part for Stack<Constructor> {
    ghost taken = { as_constructors };

    fn take(value: Value) -> Option<Stack<Constructor>> {
        match value {
            Value::Constructors(part) => Some(part),
            other => none_of(other),
        }
    }
}

impl Part for Stack<Declaration> {
    ghost taken = { as_declarations };

    fn take(value: Value) -> Option<Stack<Declaration>> {
        match value {
            Value::Declarations(part) => Some(part),
            other => none_of(other),
        }
    }
}

impl Part for Tree {
    ghost taken = { as_tree };

    fn take(value: Value) -> Option<Tree> {
        match value {
            Value::Whole(part) => Some(part),
            other => none_of(other),
        }
    }
}
