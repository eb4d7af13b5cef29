//! What becomes of the parts of declarations and of the whole description.
ghost use Rattle.std.specs.Prelude.{◌≡◌, List, Some, IfOk};
ghost use Rattle.parser_parts.specs.Actions.{made};
ghost use Rattle.parser_parts.specs.declared.value.Value.{Value};

use crate::action::Action;
use crate::pops::{pop_four, pop_three, pop_two};
use crate::stack::Stack;
use crate::value::Value;
use chw_base::{NoMemory, Seq};
use chw_grammar::{
    Constructor, Declaration, KindTree, Parameter, TermTree, Top, Tree, TypeTree, Word,
};
use std::alloc::Global;

pub fn do_domain(has_reset: bool, values: &mut Stack<Value>) -> Result<(), NoMemory>
    ensures { IfOk result (λ _. (vs : List Value) → made (Action.Domain has_reset) values.old ≡ Some vs → values.new ≡ vs) }
{
    let Some((name, declarations)) = pop_two::<Word, Stack<Declaration>>(values) else {
        return Ok(());
    };
    let domain = Declaration::Domain(name, has_reset);
    values.push(Value::Declarations(declarations.with(domain)?))
}

pub fn do_definition(values: &mut Stack<Value>) -> Result<(), NoMemory>
    ensures { IfOk result (λ _. (vs : List Value) → made Action.Definition values.old ≡ Some vs → values.new ≡ vs) }
{
    let Some((term, ty, name, declarations)) = pop_four::<
        TermTree,
        TypeTree,
        Word,
        Stack<Declaration>,
    >(values) else {
        return Ok(());
    };
    values.push(Value::Declarations(declarations.with(Declaration::Def(name, ty, term))?))
}

pub fn do_data_type(values: &mut Stack<Value>) -> Result<(), NoMemory>
    ensures { IfOk result (λ _. (vs : List Value) → made Action.DataType values.old ≡ Some vs → values.new ≡ vs) }
{
    let Some((items, parameters, name, declarations)) = pop_four::<
        Stack<Constructor>,
        Stack<Parameter>,
        Word,
        Stack<Declaration>,
    >(values) else {
        return Ok(());
    };
    let parameters = Seq::from(parameters.into_vec());
    let constructors = Seq::from(items.into_vec());
    values.push(Value::Declarations(declarations.with(Declaration::Data(
        name,
        parameters,
        constructors,
    ))?))
}

pub fn do_parameter(values: &mut Stack<Value>) -> Result<(), NoMemory>
    ensures { IfOk result (λ _. (vs : List Value) → made Action.Parameter values.old ≡ Some vs → values.new ≡ vs) }
{
    let Some((kind, name, parameters)) = pop_three::<KindTree, Word, Stack<Parameter>>(values)
    else {
        return Ok(());
    };
    values.push(Value::Parameters(parameters.with(Parameter { name, kind })?))
}

pub fn do_constructor(values: &mut Stack<Value>) -> Result<(), NoMemory>
    ensures { IfOk result (λ _. (vs : List Value) → made Action.Constructor values.old ≡ Some vs → values.new ≡ vs) }
{
    let Some((types, name, items)) = pop_three::<Stack<TypeTree>, Word, Stack<Constructor>>(values)
    else {
        return Ok(());
    };
    let fields = Seq::from(types.into_vec());
    values.push(Value::Constructors(items.with(Constructor { name, fields })?))
}

pub fn do_word(values: &mut Stack<Value>) -> Result<(), NoMemory>
    ensures { IfOk result (λ _. (vs : List Value) → made Action.Word values.old ≡ Some vs → values.new ≡ vs) }
{
    let Some((name, names)) = pop_two::<Word, Stack<Word>>(values) else {
        return Ok(());
    };
    values.push(Value::Words(names.with(name)?))
}

pub fn do_tree(values: &mut Stack<Value>) -> Result<(), NoMemory>
    ensures { IfOk result (λ _. (vs : List Value) → made Action.Tree values.old ≡ Some vs → values.new ≡ vs) }
{
    let Some((outputs, inputs, name, declarations)) = pop_four::<
        Stack<Word>,
        Stack<Word>,
        Word,
        Stack<Declaration>,
    >(values) else {
        return Ok(());
    };
    let top = Top {
        definition: name,
        inputs: Seq::from(inputs.into_vec()),
        outputs: Seq::from(outputs.into_vec()),
    };
    let declarations = Seq::from(declarations.into_vec());
    values.push(Value::Whole(Tree { declarations, top }))
}
