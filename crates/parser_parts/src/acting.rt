//! What the parser does with the parts that it has read.
ghost use Rattle.std.specs.Prelude.{◌≡◌, List, Some, IfOk};
ghost use Rattle.parser_parts.specs.Actions.{made};
ghost use Rattle.parser_parts.specs.declared.value.Value.{Value};

use crate::action::Action;
use crate::stack::Stack;
use crate::value::Value;
use crate::{declarations, terms, types};
use chw_base::NoMemory;
use chw_grammar::Pattern;
use std::alloc::Global;

/// Does the action with the newest parts, where they are such as it wants.
pub fn act(alloc: Global, action: Action, values: &mut Stack<Value>) -> Result<(), NoMemory>
    ensures { IfOk result (λ _. (vs : List Value) → made action values.old ≡ Some vs → values.new ≡ vs) }
{
    match action {
        Action::NoDeclarations => values.push(Value::Declarations(Stack::new(alloc))),
        Action::Domain(has_reset) => declarations::do_domain(has_reset, values),
        Action::Definition => declarations::do_definition(values),
        Action::DataType => declarations::do_data_type(values),
        Action::NoParameters => values.push(Value::Parameters(Stack::new(alloc))),
        Action::Parameter => declarations::do_parameter(values),
        Action::NoConstructors => values.push(Value::Constructors(Stack::new(alloc))),
        Action::Constructor => declarations::do_constructor(values),
        Action::NoWords => values.push(Value::Words(Stack::new(alloc))),
        Action::Word => declarations::do_word(values),
        Action::Tree => declarations::do_tree(values),
        Action::NoTypes => values.push(Value::Types(Stack::new(alloc))),
        Action::FirstType => types::do_first_type(alloc, values),
        Action::MoreType => types::do_more_type(values),
        Action::Forall => types::do_forall(alloc, values),
        Action::Arrow => types::do_arrow(alloc, values),
        Action::Sum => types::do_sum(values),
        Action::Product => types::do_product(values),
        Action::Named => types::do_named(values),
        Action::Variable => types::do_variable(values),
        Action::Numeral => types::do_numeral(values),
        Action::Lambda => terms::do_lambda(alloc, values),
        Action::TypeLambda => terms::do_type_lambda(alloc, values),
        Action::NoBindings => values.push(Value::Bindings(Stack::new(alloc))),
        Action::Binding => terms::do_binding(values),
        Action::LetRec => terms::do_let_rec(alloc, values),
        Action::NoAlternatives => values.push(Value::Alternatives(Stack::new(alloc))),
        Action::Alternative => terms::do_alternative(values),
        Action::ConstructorPattern => terms::do_constructor_pattern(values),
        Action::LiteralPattern => terms::do_literal_pattern(values),
        Action::DefaultPattern => values.push(Value::OnePattern(Pattern::Default)),
        Action::Case => terms::do_case(alloc, values),
        Action::NoArguments => values.push(Value::Arguments(Stack::new(alloc))),
        Action::TermArgument => terms::do_term_argument(values),
        Action::TypeArgument => terms::do_type_argument(values),
        Action::Apply => terms::do_apply(alloc, values),
        Action::NameTerm => terms::do_name_term(values),
        Action::ConstructorTerm => terms::do_constructor_term(values),
        Action::LiteralTerm => terms::do_literal_term(values),
        Action::NoTerms => values.push(Value::Terms(Stack::new(alloc))),
        Action::MoreTerm => terms::do_more_term(values),
        Action::VecLit => terms::do_vec_lit(values),
    }
}
