//! What becomes of the parts of types.
ghost use Rattle.std.specs.Prelude.{◌≡◌, List, Some, IfOk};
ghost use Rattle.parser_parts.specs.Actions.{made};
ghost use Rattle.parser_parts.specs.declared.value.Value.{Value};

use crate::action::Action;
use crate::pops::{pop, pop_three, pop_two};
use crate::stack::Stack;
use crate::value::Value;
use chw_base::NoMemory;
use chw_grammar::{KindTree, TypeTree, Word};
use std::alloc::Global;

pub fn do_first_type(alloc: Global, values: &mut Stack<Value>) -> Result<(), NoMemory>
    ensures { IfOk result (λ _. (vs : List Value) → made Action.FirstType values.old ≡ Some vs → values.new ≡ vs) }
{
    let Some(ty) = pop::<TypeTree>(values) else {
        return Ok(());
    };
    values.push(Value::Types(Stack::new(alloc).with(ty)?))
}

pub fn do_more_type(values: &mut Stack<Value>) -> Result<(), NoMemory>
    ensures { IfOk result (λ _. (vs : List Value) → made Action.MoreType values.old ≡ Some vs → values.new ≡ vs) }
{
    let Some((ty, types)) = pop_two::<TypeTree, Stack<TypeTree>>(values) else {
        return Ok(());
    };
    values.push(Value::Types(types.with(ty)?))
}

pub fn do_forall(alloc: Global, values: &mut Stack<Value>) -> Result<(), NoMemory>
    ensures { IfOk result (λ _. (vs : List Value) → made Action.Forall values.old ≡ Some vs → values.new ≡ vs) }
{
    let Some((ty, kind, name)) = pop_three::<TypeTree, KindTree, Word>(values) else {
        return Ok(());
    };
    values.push(Value::OneType(TypeTree::forall(alloc, name, kind, ty)?))
}

pub fn do_arrow(alloc: Global, values: &mut Stack<Value>) -> Result<(), NoMemory>
    ensures { IfOk result (λ _. (vs : List Value) → made Action.Arrow values.old ≡ Some vs → values.new ≡ vs) }
{
    let Some((to, ty)) = pop_two::<TypeTree, TypeTree>(values) else {
        return Ok(());
    };
    values.push(Value::OneType(TypeTree::arrow(alloc, ty, to)?))
}

pub fn do_sum(values: &mut Stack<Value>) -> Result<(), NoMemory>
    ensures { IfOk result (λ _. (vs : List Value) → made Action.Sum values.old ≡ Some vs → values.new ≡ vs) }
{
    let Some(types) = pop::<Stack<TypeTree>>(values) else {
        return Ok(());
    };
    values.push(Value::OneType(TypeTree::sum(types.into_vec())))
}

pub fn do_product(values: &mut Stack<Value>) -> Result<(), NoMemory>
    ensures { IfOk result (λ _. (vs : List Value) → made Action.Product values.old ≡ Some vs → values.new ≡ vs) }
{
    let Some(types) = pop::<Stack<TypeTree>>(values) else {
        return Ok(());
    };
    values.push(Value::OneType(TypeTree::product(types.into_vec())))
}

pub fn do_named(values: &mut Stack<Value>) -> Result<(), NoMemory>
    ensures { IfOk result (λ _. (vs : List Value) → made Action.Named values.old ≡ Some vs → values.new ≡ vs) }
{
    let Some((types, name)) = pop_two::<Stack<TypeTree>, Word>(values) else {
        return Ok(());
    };
    values.push(Value::OneType(TypeTree::named(name, types.into_vec())))
}

pub fn do_variable(values: &mut Stack<Value>) -> Result<(), NoMemory>
    ensures { IfOk result (λ _. (vs : List Value) → made Action.Variable values.old ≡ Some vs → values.new ≡ vs) }
{
    let Some(name) = pop::<Word>(values) else {
        return Ok(());
    };
    values.push(Value::OneType(TypeTree::variable(name)))
}

pub fn do_numeral(values: &mut Stack<Value>) -> Result<(), NoMemory>
    ensures { IfOk result (λ _. (vs : List Value) → made Action.Numeral values.old ≡ Some vs → values.new ≡ vs) }
{
    let Some(name) = pop::<Word>(values) else {
        return Ok(());
    };
    values.push(Value::OneType(TypeTree::numeral(name)))
}
