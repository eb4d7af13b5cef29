//! What becomes of the parts of terms.
ghost use Rattle.std.specs.Prelude.{◌≡◌, List, Some, IfOk};
ghost use Rattle.parser_parts.specs.Actions.{made};
ghost use Rattle.parser_parts.specs.declared.value.Value.{Value};

use crate::action::Action;
use crate::pops::{pop, pop_four, pop_three, pop_two};
use crate::stack::Stack;
use crate::value::Value;
use chw_base::{NoMemory, Seq};
use chw_grammar::{Alternative, Argument, Binding, KindTree, Pattern, TermTree, TypeTree, Word};
use std::alloc::Global;

pub fn do_lambda(alloc: Global, values: &mut Stack<Value>) -> Result<(), NoMemory>
    ensures { IfOk result (λ _. (vs : List Value) → made Action.Lambda values.old ≡ Some vs → values.new ≡ vs) }
{
    let Some((term, ty, name)) = pop_three::<TermTree, TypeTree, Word>(values) else {
        return Ok(());
    };
    values.push(Value::OneTerm(TermTree::lambda(alloc, name, ty, term)?))
}

pub fn do_type_lambda(alloc: Global, values: &mut Stack<Value>) -> Result<(), NoMemory>
    ensures { IfOk result (λ _. (vs : List Value) → made Action.TypeLambda values.old ≡ Some vs → values.new ≡ vs) }
{
    let Some((term, kind, name)) = pop_three::<TermTree, KindTree, Word>(values) else {
        return Ok(());
    };
    values.push(Value::OneTerm(TermTree::type_lambda(alloc, name, kind, term)?))
}

pub fn do_binding(values: &mut Stack<Value>) -> Result<(), NoMemory>
    ensures { IfOk result (λ _. (vs : List Value) → made Action.Binding values.old ≡ Some vs → values.new ≡ vs) }
{
    let Some((term, ty, name, bindings)) = pop_four::<TermTree, TypeTree, Word, Stack<Binding>>(
        values,
    ) else {
        return Ok(());
    };
    values.push(Value::Bindings(bindings.with(Binding { name, ty, term })?))
}

pub fn do_let_rec(alloc: Global, values: &mut Stack<Value>) -> Result<(), NoMemory>
    ensures { IfOk result (λ _. (vs : List Value) → made Action.LetRec values.old ≡ Some vs → values.new ≡ vs) }
{
    let Some((term, bindings)) = pop_two::<TermTree, Stack<Binding>>(values) else {
        return Ok(());
    };
    values.push(Value::OneTerm(TermTree::letrec(alloc, bindings.into_vec(), term)?))
}

pub fn do_alternative(values: &mut Stack<Value>) -> Result<(), NoMemory>
    ensures { IfOk result (λ _. (vs : List Value) → made Action.Alternative values.old ≡ Some vs → values.new ≡ vs) }
{
    let Some((term, pattern, alternatives)) = pop_three::<TermTree, Pattern, Stack<Alternative>>(
        values,
    ) else {
        return Ok(());
    };
    values.push(Value::Alternatives(alternatives.with(Alternative { pattern, term })?))
}

pub fn do_constructor_pattern(values: &mut Stack<Value>) -> Result<(), NoMemory>
    ensures { IfOk result (λ _. (vs : List Value) → made Action.ConstructorPattern values.old ≡ Some vs → values.new ≡ vs) }
{
    let Some((names, name)) = pop_two::<Stack<Word>, Word>(values) else {
        return Ok(());
    };
    values.push(Value::OnePattern(Pattern::Constructor(name, Seq::from(names.into_vec()))))
}

pub fn do_literal_pattern(values: &mut Stack<Value>) -> Result<(), NoMemory>
    ensures { IfOk result (λ _. (vs : List Value) → made Action.LiteralPattern values.old ≡ Some vs → values.new ≡ vs) }
{
    let Some(name) = pop::<Word>(values) else {
        return Ok(());
    };
    values.push(Value::OnePattern(Pattern::Literal(name)))
}

pub fn do_case(alloc: Global, values: &mut Stack<Value>) -> Result<(), NoMemory>
    ensures { IfOk result (λ _. (vs : List Value) → made Action.Case values.old ≡ Some vs → values.new ≡ vs) }
{
    let Some((alternatives, term)) = pop_two::<Stack<Alternative>, TermTree>(values) else {
        return Ok(());
    };
    values.push(Value::OneTerm(TermTree::case(alloc, term, alternatives.into_vec())?))
}

pub fn do_term_argument(values: &mut Stack<Value>) -> Result<(), NoMemory>
    ensures { IfOk result (λ _. (vs : List Value) → made Action.TermArgument values.old ≡ Some vs → values.new ≡ vs) }
{
    let Some((term, items)) = pop_two::<TermTree, Stack<Argument>>(values) else {
        return Ok(());
    };
    values.push(Value::Arguments(items.with(Argument::OfTerm(term))?))
}

pub fn do_type_argument(values: &mut Stack<Value>) -> Result<(), NoMemory>
    ensures { IfOk result (λ _. (vs : List Value) → made Action.TypeArgument values.old ≡ Some vs → values.new ≡ vs) }
{
    let Some((ty, items)) = pop_two::<TypeTree, Stack<Argument>>(values) else {
        return Ok(());
    };
    values.push(Value::Arguments(items.with(Argument::OfType(ty))?))
}

pub fn do_apply(alloc: Global, values: &mut Stack<Value>) -> Result<(), NoMemory>
    ensures { IfOk result (λ _. (vs : List Value) → made Action.Apply values.old ≡ Some vs → values.new ≡ vs) }
{
    let Some((items, term)) = pop_two::<Stack<Argument>, TermTree>(values) else {
        return Ok(());
    };
    values.push(Value::OneTerm(TermTree::apply(alloc, term, items.into_vec())?))
}

pub fn do_name_term(values: &mut Stack<Value>) -> Result<(), NoMemory>
    ensures { IfOk result (λ _. (vs : List Value) → made Action.NameTerm values.old ≡ Some vs → values.new ≡ vs) }
{
    let Some(name) = pop::<Word>(values) else {
        return Ok(());
    };
    values.push(Value::OneTerm(TermTree::name(name)))
}

pub fn do_constructor_term(values: &mut Stack<Value>) -> Result<(), NoMemory>
    ensures { IfOk result (λ _. (vs : List Value) → made Action.ConstructorTerm values.old ≡ Some vs → values.new ≡ vs) }
{
    let Some(name) = pop::<Word>(values) else {
        return Ok(());
    };
    values.push(Value::OneTerm(TermTree::constructor(name)))
}

pub fn do_literal_term(values: &mut Stack<Value>) -> Result<(), NoMemory>
    ensures { IfOk result (λ _. (vs : List Value) → made Action.LiteralTerm values.old ≡ Some vs → values.new ≡ vs) }
{
    let Some(name) = pop::<Word>(values) else {
        return Ok(());
    };
    values.push(Value::OneTerm(TermTree::literal(name)))
}

pub fn do_more_term(values: &mut Stack<Value>) -> Result<(), NoMemory>
    ensures { IfOk result (λ _. (vs : List Value) → made Action.MoreTerm values.old ≡ Some vs → values.new ≡ vs) }
{
    let Some((term, terms)) = pop_two::<TermTree, Stack<TermTree>>(values) else {
        return Ok(());
    };
    values.push(Value::Terms(terms.with(term)?))
}

pub fn do_vec_lit(values: &mut Stack<Value>) -> Result<(), NoMemory>
    ensures { IfOk result (λ _. (vs : List Value) → made Action.VecLit values.old ≡ Some vs → values.new ≡ vs) }
{
    let Some((terms, ty)) = pop_two::<Stack<TermTree>, TypeTree>(values) else {
        return Ok(());
    };
    values.push(Value::OneTerm(TermTree::vec_lit(ty, terms.into_vec())))
}
